//! Finds the links of a new version by climbing those of older ones, so that each entry that it
//! links to is read once.

ghost use Rattle.std.specs.{
  Prelude.{◌≡◌, ◌+◌, ◌*◌, ◌^◌, ◌<◌, ◌≤◌, List, length, IfOk, bit_xor},
  List.{All},
};
ghost use Rattle.skip_links.specs.declared.limits.TheConstants.{MAX_LEVEL};
ghost use Rattle.skip_links.specs.Paths.{binary_digits};
ghost use Rattle.entry_store.specs.{declared.entry.Hop.{Hop}, Steps.{raised_count}};
ghost use Rattle.skip_list.specs.{
  Climbing.{entries_climbed},
  Towered.{links_over, AreVersions, AreOlder, LeadsToTowered},
};

use crate::rung::{read, rung_at};
use entry_store::{Counter, EntryId, HopList, Steps, Store};
use lc_base::Memory;
use std::alloc::Global;

/// The height of a version, from the block `previous` of the version before it: the place of the
/// highest binary digit in which the two blocks differ.
fn height_over(previous: u32, block: u32) -> u32
    requires { previous < block }
    ensures most { result ≤ MAX_LEVEL }
    ensures highest { (2 ^ result ≤ bit_xor previous block) × (bit_xor previous block < 2 * 2 ^ result) }
{
    (previous ^ block).ilog2()
}

/// The links of a new version of a key in this block, one for each level from 0 to its height; none
/// for a first version. It reads the newest version, and each other one that a link leads to, once.
pub fn links_for<C: Counter>(
    alloc: Global,
    store: &Store,
    newest: Option<EntryId>,
    block: u32,
    steps: &mut Steps<C>,
) -> Result<HopList, Memory>
    requires { (versions : List Hop) × AreVersions store.now newest versions × AreOlder block versions }
    ensures links { (versions : List Hop) → AreVersions store.now newest versions → AreOlder block versions → IfOk result (λ hops. hops ≡ links_over block versions) }
    ensures read { (versions : List Hop) → AreVersions store.now newest versions → AreOlder block versions
        → IfOk result (λ _. steps.new ≡ raised_count steps.old (entries_climbed versions (links_over block versions))) }
    ensures never_less { steps.old ≤ steps.new }
    ensures count { steps.new ≤ steps.old + binary_digits block }
    ensures towered { IfOk result (λ hops. All (LeadsToTowered store.now) hops) }
    ensures few { IfOk result (λ hops. length hops ≤ MAX_LEVEL + 1) }
{
    // By this call contracts know that the count fits into a u64.
    let _count = steps.count();
    let Some(newest) = newest else {
        return Ok(HopList::new(alloc));
    };
    let mut rung = read(store, newest, steps);
    let height = height_over(rung.version.block, block);
    let mut hops = HopList::new(alloc);
    // The last version at each level from 0 to the height.
    for level in 0..height + 1 {
        rung = rung_at(store, rung, level, steps);
        hops.push(rung.version)?;
    }
    Ok(hops)
}
