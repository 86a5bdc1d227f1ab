//! The functions that every contract may call without declaring them: the one table of their names,
//! parameters and kinds.

ghost use Rattle.std.specs.{
  Prelude.{◌≡◌, ◌==◌, find},
  Option.{option_copied},
  Cmp.Lexicographic.{pointwise},
};
ghost use Rattle.contract_tree.specs.Builtins.{builtin_name, params_of, kind_given, is_named, builtin_of};

use crate::tree::ValueKind;
use lc_base::Name;

/// A function that every contract may call without declaring it. Keys are texts; block numbers and
/// indexes, which count from 0, are ints.
#[derive(Clone, Copy)]
pub enum Builtin {
    /// `get_int(key)` returns the number at the key.
    GetInt,
    /// `get_text(key)` returns the text at the key.
    GetText,
    /// `has(key)` returns 1 if the key has a value, else 0.
    Has,
    /// `caller()` returns the sender as a text.
    Caller,
    /// `block()` returns the number of this block.
    Block,
    /// `len(text)` returns the number of bytes of the text.
    Len,
    /// `text(number)` returns the number in decimal digits, with `-` before them if it is negative.
    Text,
    /// `hist_int(key, block)` returns the number that the key had after the block.
    HistInt,
    /// `hist_text(key, block)` returns the text that the key had after the block.
    HistText,
    /// `hist_block(key, block)` returns the block that wrote the value that the key had after
    /// `block`.
    HistBlock,
    /// `hist_tx(key, block)` returns the index, in its block, of the transaction that wrote that
    /// value.
    HistTx,
    /// `seen(key, block)` returns 1 if the key had a value after the block, else 0.
    Seen,
    /// `back_count(key, block)` returns the number of dependencies of the value that the key had
    /// after the block.
    BackCount,
    /// `fwd_count(key, block)` returns the number of uses of the value that the key had after the
    /// block.
    FwdCount,
    /// `back_key(key, block, index)` returns the key of the dependency at that index.
    BackKey,
    /// `fwd_key(key, block, index)` returns the key of the use at that index.
    FwdKey,
    /// `back_block(key, block, index)` returns the block of the dependency at that index.
    BackBlock,
    /// `fwd_block(key, block, index)` returns the block of the use at that index.
    FwdBlock,
}

// All builtins, in the order of the definitions.
const BUILTINS: [Builtin; 18] = [
    Builtin::GetInt,
    Builtin::GetText,
    Builtin::Has,
    Builtin::Caller,
    Builtin::Block,
    Builtin::Len,
    Builtin::Text,
    Builtin::HistInt,
    Builtin::HistText,
    Builtin::HistBlock,
    Builtin::HistTx,
    Builtin::Seen,
    Builtin::BackCount,
    Builtin::FwdCount,
    Builtin::BackKey,
    Builtin::FwdKey,
    Builtin::BackBlock,
    Builtin::FwdBlock,
];

impl Builtin {
    /// The builtin with this name.
    #[tactic(auto, unfolding(crate::specs::Builtins::builtin_of))]
    pub fn of_name(name: &Name) -> Option<Builtin>
        ensures { result ≡ builtin_of name.now }
    {
        first_named(&BUILTINS, name).copied()
    }

    /// The name of the builtin.
    pub fn name(self) -> &'static [u8]
        ensures { result.now ≡ builtin_name self }
    {
        match self {
            Builtin::GetInt => b"get_int",
            Builtin::GetText => b"get_text",
            Builtin::Has => b"has",
            Builtin::Caller => b"caller",
            Builtin::Block => b"block",
            Builtin::Len => b"len",
            Builtin::Text => b"text",
            Builtin::HistInt => b"hist_int",
            Builtin::HistText => b"hist_text",
            Builtin::HistBlock => b"hist_block",
            Builtin::HistTx => b"hist_tx",
            Builtin::Seen => b"seen",
            Builtin::BackCount => b"back_count",
            Builtin::FwdCount => b"fwd_count",
            Builtin::BackKey => b"back_key",
            Builtin::FwdKey => b"fwd_key",
            Builtin::BackBlock => b"back_block",
            Builtin::FwdBlock => b"fwd_block",
        }
    }

    /// The kinds of its parameters, in order.
    pub fn params(self) -> &'static [ValueKind]
        ensures { result.now ≡ params_of self }
    {
        match self {
            Builtin::Caller | Builtin::Block => &[],
            Builtin::GetInt | Builtin::GetText | Builtin::Has | Builtin::Len => &[ValueKind::Text],
            Builtin::Text => &[ValueKind::Int],
            Builtin::BackKey | Builtin::FwdKey | Builtin::BackBlock | Builtin::FwdBlock => {
                &[ValueKind::Text, ValueKind::Int, ValueKind::Int]
            }
            _ => &[ValueKind::Text, ValueKind::Int],
        }
    }

    /// The kind of the value that it returns.
    pub fn gives(self) -> ValueKind
        ensures { result ≡ kind_given self }
    {
        match self {
            Builtin::GetText
            | Builtin::Caller
            | Builtin::Text
            | Builtin::HistText
            | Builtin::BackKey
            | Builtin::FwdKey => ValueKind::Text,
            _ => ValueKind::Int,
        }
    }
}

fn is_named(builtin: Builtin, name: &Name) -> bool
    ensures { result ≡ is_named name.now builtin }
{
    builtin.name() == name.as_bytes()
}

fn first_named<'a>(all: &'a [Builtin], name: &Name) -> Option<&'a Builtin>
    ensures { option_copied result ≡ find (is_named name.now) all.now }
{
    all.iter().find(|builtin| is_named(**builtin, name))
}
