//! Laws of the definitions, each the contract of a function that does nothing.

ghost use Rattle.merkle_tree.specs.{
  Laws.{TreesAreSplit, PathsInTheFirstPart, PathsInTheRest, LengthsInTheFirstPart, LengthsInTheRest, PathsHaveTheirLength, PathsAreComplete, PathsAreSound, PathsAreSoundOrClash, TextsAgreeOrClash, NeverBoth, ListsAreSound, WalksAreSound},
  Tree.{tree_hash, audit_path, audit_length},
};
ghost use Rattle.std.specs.Prelude.{◌≡◌, [], ◌∷◌, List, ℕ};
ghost use Rattle.sha2.specs.Sha256.{sha256};

/// The tree hash is that of RFC 6962, section 2.1: of no leaf, of one, and of more.
pub fn trees_follow_the_rule()
    ensures none { tree_hash [] ≡ sha256 [] }
    ensures one { (text : List ℕ) → tree_hash (text ∷ []) ≡ sha256 text }
    ensures more { TreesAreSplit }
{}

/// Audit paths are those of RFC 6962, section 2.1.1, and so are their lengths.
pub fn paths_follow_the_rule()
    ensures one { (text : List ℕ) → audit_path 0 (text ∷ []) ≡ [] }
    ensures first_part { PathsInTheFirstPart }
    ensures rest { PathsInTheRest }
    ensures length_of_one { audit_length 0 1 ≡ 0 }
    ensures length_in_the_first_part { LengthsInTheFirstPart }
    ensures length_in_the_rest { LengthsInTheRest }
{}

/// An audit path has the audit length, and leads from the hash of its leaf to the tree hash.
pub fn paths_are_complete()
    ensures length { PathsHaveTheirLength }
    ensures complete { PathsAreComplete }
{}

/// What leads to the tree hash began at the hash of that leaf, or two texts clash.
pub fn paths_are_sound()
    ensures sound { PathsAreSound }
    ensures sound_or_clash { PathsAreSoundOrClash }
{}

/// Two lists of texts agree, or they clash.
pub fn texts_agree_or_clash()
    ensures either { TextsAgreeOrClash }
    ensures never_both { NeverBoth }
{}

/// Lists whose texts agree are equal if their digests are.
pub fn lists_are_sound<T>()
    ensures { ListsAreSound T }
{}

/// A walk over texts that agree goes from each text to the one that it names.
pub fn walks_are_sound()
    ensures { WalksAreSound }
{}
