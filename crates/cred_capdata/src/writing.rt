//! A record written.
ghost use Rattle.std.specs.Prelude.{IfOk};
ghost use Rattle.cred_capdata.specs.Record.{SpellsData, IsCanonicalData, HasBytes};

use crate::data::CapData;
use crate::version::{LENGTH, length_of, word_of_version};
use byteorder::{ByteOrder, LittleEndian};
use cred_filecap::words_of;
use cred_ids::NoMemory;
use cred_record::Attr;
use std::alloc::Global;

/// The bytes of a record, 20 in version 1 and 32 in the others, as capset(2) takes them. Every bit
/// that spells nothing is zero.
///
/// # Errors
///
/// `NoMemory` if the allocation of the bytes fails.
pub fn write_data(alloc: Global, caps: &CapData) -> Result<Attr, NoMemory>
    requires { HasBytes caps.now }
    ensures spells { IfOk result (λ bytes. SpellsData bytes caps.now) }
    ensures canonical { IfOk result (λ bytes. IsCanonicalData bytes) }
{
    let target = caps.target;
    let eff = words_of(caps.eff);
    let perm = words_of(caps.perm);
    let inh = words_of(caps.inh);
    let words = [
        word_of_version(caps.version),
        target,
        eff.low,
        perm.low,
        inh.low,
        eff.high,
        perm.high,
        inh.high,
    ];
    let mut bytes = [0; LENGTH];
    LittleEndian::write_u32_into(&words, &mut bytes);
    Ok(Attr::of(alloc, &bytes[..length_of(caps.version)])?)
}
