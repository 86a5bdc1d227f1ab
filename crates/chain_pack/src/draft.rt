//! Packing whole drafts: the first fault in their order decides.

ghost use Rattle.std.specs.{
  Prelude.{◌≡◌, ◌≤◌, true, map, length, IfOk},
  Option.{ok_or},
  List.{AllByRecursion},
};
ghost use Rattle.serde_json.specs.View.{view};
ghost use Rattle.lc_base.specs.Answers.{Answers};
ghost use Rattle.chain_pack.specs.Json.{json_in};
ghost use Rattle.chain_pack.specs.{
  Draft.{pack_fault, texts_from, texts_of_draft, IsBlockText},
  declared.draft.TheConstants.{MAX_PACKED_BLOCKS},
};
ghost use Rattle.block_codec.specs.{Placement.{no_parent}, Spelling.{is_version}};

use crate::block::text_in;
use crate::error::PackError;
use crate::fields::items_in;
use block_codec::{NO_PARENT, block_digest};
use lc_base::TextList;
use serde_json::{Category, Value as Json};
use std::alloc::Global;

/// The greatest number of blocks that are packed, 2^32: block numbers have 32 bits.
pub const MAX_PACKED_BLOCKS: usize = 4_294_967_296;

#[tactic(auto, using(crate::proofs::Texts::found, crate::proofs::Texts::refused))]
fn json_in(alloc: Global, draft: &[u8]) -> Result<Json, PackError>
    ensures { Answers view pack_fault result (ok_or (json_in draft.now) PackError.Json) }
{
    match Json::from_slice(alloc, draft) {
        Ok(json) => Ok(json),
        Err(error) => match error.classify() {
            Category::Memory => Err(PackError::Memory),
            _ => Err(PackError::Json),
        },
    }
}

fn texts(alloc: Global, blocks: &[Json], version: u8) -> Result<TextList, PackError>
    requires few { length blocks.now ≤ MAX_PACKED_BLOCKS }
    requires version { is_version version ≡ true }
    ensures texts { Answers (λ texts. texts) pack_fault result (texts_from version 0 no_parent (map view blocks.now)) }
    ensures spelled { IfOk result (AllByRecursion IsBlockText) }
{
    let mut texts = TextList::new(alloc);
    let mut parent = NO_PARENT;
    for block in blocks {
        let text = text_in(alloc, version, texts.len() as u32, parent, block)?;
        parent = block_digest(text.as_bytes());
        texts.push(text)?;
    }
    Ok(texts)
}

/// The texts of the blocks of a draft, which have this version.
pub fn pack(alloc: Global, draft: &[u8], version: u8) -> Result<TextList, PackError>
    requires { is_version version ≡ true }
    ensures packed { Answers (λ texts. texts) pack_fault result (texts_of_draft version draft.now) }
    // Each text spells a block, so it is no longer than one.
    ensures spelled { IfOk result (AllByRecursion IsBlockText) }
{
    let json = json_in(alloc, draft)?;
    let Some(blocks) = items_in(&json) else {
        return Err(PackError::Top);
    };
    if blocks.len() > MAX_PACKED_BLOCKS {
        return Err(PackError::Memory);
    }
    texts(alloc, blocks, version)
}
