//! Published digests of messages that begin with `a`, which is the tag here: those of the examples
//! of FIPS 180-4, of one block of the hash, of two, of one that is filled up, and of many.

use digest_kit::TagHasher;
use hex::FromHex;

const TAG: u8 = b'a';

const ONE_BLOCK: &str = "ba7816bf8f01cfea414140de5dae2223b00361a396177a9cb410ff61f20015ad";

const TWO_BLOCKS: &str = "248d6a61d20638b8e5c026930c3e6039a33ce45964ff2167f6ecedd419db06c1";

const LONGER: &str = "cf5b16a778af8380036ce59e7b0492370b249b11e8f07a51afac45037afee9d1";

const MILLION: &str = "cdc76e5c9914fb9281a1c7e284d73e67f1809a48a497200e046d39ccc7112cd0";

/// Messages: two pieces after the tag, as many tags after these, and the digest.
const MESSAGES: [(&[u8], &[u8], u32, &str); 5] = [
    (b"bc", b"", 0, ONE_BLOCK),
    (b"b", b"c", 0, ONE_BLOCK),
    (
        b"bcdbcdecdefdefgefghfghighijhijkijkljklmklmnlmnomnopnopq",
        b"",
        0,
        TWO_BLOCKS,
    ),
    (
        b"bcdefghbcdefghicdefghijdefghijkefghijklfghijklmghijklmnhijklmno",
        b"ijklmnopjklmnopqklmnopqrlmnopqrsmnopqrstnopqrstu",
        0,
        LONGER,
    ),
    (b"", b"", 999_999, MILLION),
];

/// Whether the digest of the tag, of these pieces, and of as many tags is spelled by these digits in
/// hex.
fn has_digest(first: &[u8], second: &[u8], count: u32, digits: &str) -> bool {
    let mut hasher = TagHasher::new(TAG);
    hasher.add(first);
    hasher.add(second);
    for _ in 0..count {
        hasher.add(&[TAG]);
    }
    let digest = hasher.finish();
    match <[u8; 32] as FromHex>::from_hex(digits) {
        Ok(wanted) => digest.0 == wanted,
        Err(_) => false,
    }
}

#[test]
fn published_digests(rt: HostRuntime) {
    for (first, second, count, digits) in MESSAGES {
        assert!(rt; has_digest(first, second, count, digits));
    }
}
