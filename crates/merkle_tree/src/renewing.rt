//! Adds several leaves and sets the hashes of several, in one pass upward: room is taken in each
//! level first, and from then on nothing can fail.

ghost use Rattle.std.specs.Prelude.{◌≡◌, ◌≤◌, OnOk, vec_capacity};
ghost use Rattle.merkle_tree.specs.Levels.{count_above, level_of_length, set_each, renew_through, hashes_in, HaveRoom};

use crate::setting_all::{HashAt, NO_HASH, raise_each, set_each};
use lc_base::{Digest, Memory};

/// The number of hashes in the level above `count` hashes: one for each pair, and one more if the
/// last has no partner.
fn count_above(count: usize) -> usize
    ensures { result ≡ count_above count }
{
    count - count / 2
}

/// Takes room for `count` hashes in the lowest level, and for those over them in the others.
pub(crate) fn take_room(levels: &mut [Vec<Digest>], count: usize) -> Result<(), Memory>
    ensures same { hashes_in levels.new ≡ hashes_in levels.old }
    ensures room { OnOk result (HaveRoom count levels.new) }
{
    let mut wanted = count;
    for level in levels.iter_mut() {
        level.reserve(wanted.saturating_sub(level.len()))?;
        wanted = count_above(wanted);
    }
    Ok(())
}

/// Makes a level at least `count` places long; new places have `NO_HASH`.
fn lengthen(level: &mut Vec<Digest>, count: usize)
    requires { count ≤ vec_capacity level.old }
    ensures { level.new.items ≡ level_of_length level.old.items count }
{
    while level.len() < count {
        match level.push(NO_HASH) {
            Ok(()) => {}
            Err(_) => unreachable!(),
        }
    }
}

/// Makes a level at least `count` places long, and sets some hashes in it, one after another.
fn renew_level(level: &mut Vec<Digest>, count: usize, hashes: &[HashAt])
    requires { count ≤ vec_capacity level.old }
    ensures { level.new.items ≡ set_each (level_of_length level.old.items count) hashes.now }
{
    lengthen(level, count);
    set_each(level.as_mut_slice(), hashes);
}

/// Makes the lowest level at least `count` places long and sets some hashes in it, one after
/// another; then it does the same in each level above, with the hashes over these. It takes no
/// memory.
pub(crate) fn renew_through(levels: &mut [Vec<Digest>], count: usize, hashes: Vec<HashAt>)
    requires { HaveRoom count levels.old }
    ensures { hashes_in levels.new ≡ renew_through count hashes.items (hashes_in levels.old) }
{
    let mut over = hashes;
    let mut wanted = count;
    for level in levels.iter_mut() {
        renew_level(level, wanted, over.as_slice());
        raise_each(level.as_slice(), over.as_mut_slice());
        wanted = count_above(wanted);
    }
}
