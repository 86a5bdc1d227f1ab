//! Reads the items of lists, field by field.
#![tactic(auto, unfolding(crate::specs::Reading::digest_at, crate::specs::Reading::use_at, crate::specs::Reading::link_at, crate::specs::Reading::body_dep_at))]

ghost use Rattle.entry_views.specs.Reading.{digest_at, use_at, link_at, body_dep_at};

use crate::list_view::ListItem;
use byte_fields::{Fault, Reader};
use lc_base::{Dep, Digest};
use prov_entry::{BodyDep, Link};

impl ListItem for Digest {
    ghost item_at = { digest_at };

    fn read(reader: &mut Reader) -> Result<Digest, Fault> {
        Ok(Digest(reader.digest_bytes()?))
    }
}

impl ListItem for Dep {
    ghost item_at = { use_at };

    fn read(reader: &mut Reader) -> Result<Dep, Fault> {
        let key = reader.key()?;
        let block = reader.u32()?;
        Ok(Dep { key, block })
    }
}

impl ListItem for Link {
    ghost item_at = { link_at };

    fn read(reader: &mut Reader) -> Result<Link, Fault> {
        let block = reader.u32()?;
        let digest = Digest(reader.digest_bytes()?);
        Ok(Link { block, digest })
    }
}

impl ListItem for BodyDep {
    ghost item_at = { body_dep_at };

    fn read(reader: &mut Reader) -> Result<BodyDep, Fault> {
        let key = reader.key()?;
        let block = reader.u32()?;
        let digest = Digest(reader.digest_bytes()?);
        Ok(BodyDep { key, block, digest })
    }
}
