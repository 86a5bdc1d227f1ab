//! Digests, which tell texts apart.

ghost use Rattle.std.specs.Prelude.{◌≡◌, length};

/// A SHA-256 digest (FIPS 180-4): 32 bytes.
#[derive(Clone, Copy, PartialEq, Eq)]
pub struct Digest(pub [u8; 32]);

/// Does nothing: its contract makes known that a digest has 32 bytes.
pub fn check_digest(digest: &Digest)
    ensures { length digest.now.0 ≡ 32 }
{
    let _bytes = digest.0;
}
