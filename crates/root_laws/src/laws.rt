//! Laws of headers, of keys and of roots, each the contract of a function that does nothing.

ghost use Rattle.root_laws.specs.{
  GrowthLaws.{EarlierVersionsStayNamed, EarlierHeadersStay, EarlierKeysStandFirst, EarlierRootsStay, VersionsOfABlockAreNamed, LinksAreOfTheHistory, ClosedListsAreOfTheHistory},
  NamingLaws.{RowsAreNamed, LinksNameHeaders, DependenciesNameHeaders, LeavesNameHeaders},
  WalkLaws.{HeaderWalksAreSound},
  KeyLaws.{KeysAreThoseOfTheRows, KeysAreDistinct, NextKeyIsTheLeastGreater, NextKeyIsUnique, NewKeyIsThreaded},
};

// ---- histories that grow

/// What is named of the blocks before one stays when rows of this block or of later ones are
/// appended.
pub fn earlier_versions_stay_named()
    ensures { EarlierVersionsStayNamed }
{}

/// The header and the body of a row stay when rows of later blocks are appended.
pub fn earlier_headers_stay()
    ensures { EarlierHeadersStay }
{}

/// The versions of a block are named behind those of the blocks before, each over the history up to
/// this block.
pub fn versions_of_a_block_are_named()
    ensures { VersionsOfABlockAreNamed }
{}

/// Keys stay in their places when rows are appended; new keys are put after them.
pub fn earlier_keys_stand_first()
    ensures { EarlierKeysStandFirst }
{}

/// A root stays when rows and digests of later blocks are appended.
pub fn earlier_roots_stay()
    ensures { EarlierRootsStay }
{}

// ---- the rows up to a block, and the whole history

/// The links of a version are the same over the whole history as over the rows up to its block.
pub fn links_are_of_the_history()
    ensures { LinksAreOfTheHistory }
{}

/// The list that a version of a lawful history closes is the same over both: no row of a later
/// block is derived from the version before it.
pub fn closed_lists_are_of_the_history()
    ensures { ClosedListsAreOfTheHistory }
{}

// ---- digests that name headers

/// Later blocks name a row of a lawful history by the digest of its header.
pub fn rows_are_named()
    ensures { RowsAreNamed }
{}

/// Each link of a header is to an older version of the key, by the digest of its header.
pub fn links_name_headers()
    ensures { LinksNameHeaders }
{}

/// Each dependency of a body is on an older version, by the digest of its header.
pub fn dependencies_name_headers()
    ensures { DependenciesNameHeaders }
{}

/// The leaf of a key names its newest version by the digest of the header.
pub fn leaves_name_headers()
    ensures { LeavesNameHeaders }
{}

/// A walk from a row that follows links is over the headers of the versions of the row's key, or one
/// of its texts and one of the headers differ and have one digest.
pub fn header_walks_are_sound()
    ensures { HeaderWalksAreSound }
{}

// ---- keys

/// A key is among those of the rows exactly if it has a version.
pub fn keys_are_those_of_the_rows()
    ensures { KeysAreThoseOfTheRows }
{}

/// No key is twice among the keys of the rows.
pub fn keys_are_distinct()
    ensures { KeysAreDistinct }
{}

/// The next key is the least one that is greater.
pub fn next_key_is_the_least_greater()
    ensures { NextKeyIsTheLeastGreater }
{}

/// Only one key is the least that is greater.
pub fn next_key_is_unique()
    ensures { NextKeyIsUnique }
{}

/// One key more comes next after a key if it is greater, and less than the one that came next; else
/// the next key stays.
pub fn new_key_is_threaded()
    ensures { NewKeyIsThreaded }
{}
