ghost use Rattle.std.specs.Prelude.{◌≡◌, [], ◌∷◌, ◌++◌, List, ℕ};
ghost use Rattle.sha2.specs.Sha256.{sha256};
ghost use Rattle.digest_kit.specs.Hasher.{HasAdded};

use lc_base::Digest;
use sha2::{Digest as _, Sha256};

/// A hasher of a tag, one byte that says what is digested, followed by the bytes that are added
/// piece by piece. No call takes memory.
#[derive(Drop)]
pub struct TagHasher {
    hasher: Sha256,
}

impl TagHasher {
    /// A hasher to which the tag alone was added.
    pub fn new(tag: u8) -> TagHasher
        ensures { HasAdded result (tag ∷ []) }
    {
        let mut hasher = TagHasher {
            hasher: Sha256::new(),
        };
        hasher.add(&[tag]);
        hasher
    }

    /// Adds bytes after the tag and all that was added before.
    pub fn add(&mut self, bytes: &[u8])
        ensures { (message : List ℕ) → HasAdded self.old message → HasAdded self.new (message ++ bytes.now) }
    {
        self.hasher.update(bytes);
    }

    /// The SHA-256 digest (FIPS 180-4) of the tag and all bytes added.
    pub fn finish(self) -> Digest
        ensures { (message : List ℕ) → HasAdded self message → result.0 ≡ sha256 message }
    {
        Digest(self.hasher.finalize())
    }
}
