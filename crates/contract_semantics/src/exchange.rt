//! Calls that end with `Ok` and don't touch each other's keys can be exchanged within a block.

ghost use Rattle.contract_semantics.specs.ExchangeLaws.{
  KeysMetAreReadOrPut,
  ReadsAndPutsAreComplete,
  PutsOfOthersChangeNothing,
  CallsCanBeExchanged,
};

/// If a call ends with `Ok`, each key that it met is unwritten, and was read or put.
pub fn keys_met_are_read_or_put()
    ensures { KeysMetAreReadOrPut }
{}

/// A call that ended with `Ok` has the same result wherever what it read and asked is the same, and
/// the block has written none of the keys that it read or put.
pub fn reads_and_puts_are_complete()
    ensures { ReadsAndPutsAreComplete }
{}

/// A call that ended with `Ok` has the same result after a transaction of its block that put none
/// of the keys that it read or put.
pub fn puts_of_others_change_nothing()
    ensures { PutsOfOthersChangeNothing }
{}

/// Two calls of one block can be exchanged if both end with `Ok` and the first read no key that the
/// second put.
pub fn calls_can_be_exchanged()
    ensures { CallsCanBeExchanged }
{}
