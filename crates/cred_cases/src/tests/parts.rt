//! What several modules make their cases of.
use cred_ids::Id;
use std::test::Fail;

/// The bits of all capabilities.
pub(crate) const ALL: u64 = 0x1ff_ffff_ffff;

pub(crate) fn id(n: u32) -> Result<Id, Fail> {
    Ok(Id::new(n).ok_or("no id")?)
}
