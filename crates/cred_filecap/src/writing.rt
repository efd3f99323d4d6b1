//! An attribute written.
ghost use Rattle.std.specs.Prelude.{IfOk};
ghost use Rattle.cred_rules.specs.Attribute.{Spells, IsCanonical};

use crate::caps::FileCaps;
use crate::sets::words_of;
use crate::version::{LENGTH_3, length_of};
use crate::words::magic;
use byteorder::{ByteOrder, LittleEndian};
use cred_ids::NoMemory;
use cred_record::Attr;
use std::alloc::Global;

/// The bytes of an attribute, 12 in version 1, 20 in version 2 and 24 in version 3
/// (linux/capability.h, `struct vfs_ns_cap_data`), as setxattr(2) takes them. Every bit that spells
/// nothing is zero.
///
/// # Errors
///
/// `NoMemory` if the allocation of the bytes fails.
pub fn encode(alloc: Global, caps: &FileCaps) -> Result<Attr, NoMemory>
    ensures spells { IfOk result (λ attr. Spells attr caps.now) }
    ensures canonical { IfOk result (λ attr. IsCanonical attr) }
{
    let root = caps.root;
    let perm = words_of(caps.perm);
    let inh = words_of(caps.inh);
    let words = [
        magic(caps.version, caps.effective),
        perm.low,
        inh.low,
        perm.high,
        inh.high,
        root,
    ];
    let mut bytes = [0; LENGTH_3];
    LittleEndian::write_u32_into(&words, &mut bytes);
    let length = length_of(caps.version).unwrap();
    Ok(Attr::of(alloc, &bytes[..length])?)
}
