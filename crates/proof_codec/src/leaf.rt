//! The leaf at index 0 has no key, and every other one has: the length of the key is checked first.

ghost use Rattle.std.specs.Prelude.{◌≡◌};
ghost use Rattle.entry_views.specs.byte_fields.Reader.{fault_left, ReadsAs};
ghost use Rattle.proof_codec.specs.{Reading.{leaf_at_index}, Leaf.{begins_as}};

use entry_views::{Fault, LeafView, Reader};

/// Whether `bytes` begin with the length of a key that a leaf at `index` may have: 0 exactly if
/// `index` is 0.
fn begins_as(bytes: &[u8], index: u32) -> bool
    ensures { result ≡ begins_as index bytes.now }
{
    match bytes {
        [high, low, ..] => {
            let empty = *high == 0 && *low == 0;
            if index == 0 { empty } else { !empty }
        }
        _ => false,
    }
}

/// Reads the leaf at `index`, which has no key exactly if `index` is 0.
#[tactic(auto, using(crate::proofs::LeafKeys::index_passed, crate::proofs::LeafKeys::index_failed))]
pub(crate) fn leaf<'p>(reader: &mut Reader<'p>, index: u32) -> Result<LeafView<'p>, Fault>
    ensures { ReadsAs (λ leaf. leaf.value) fault_left result (leaf_at_index index reader.old) reader.new }
{
    let left = reader.remaining();
    if !begins_as(reader.rest(), index) {
        return Err(Fault { left });
    }
    LeafView::read(reader)
}
