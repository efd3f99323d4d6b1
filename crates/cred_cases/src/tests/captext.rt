//! Texts of file capabilities: those that are written are read as they were. No command writes one.
use cred_caps::CapSet;
use cred_captext::{print_text, read_text};
use cred_filecap::FileCaps;
use cred_ids::NoMemory;
use std::alloc::Global;
use std::test::Fail;

/// Texts as they are written, each of one attribute, as getcap(8) has them.
const WRITTEN: [&str; 6] = [
    "=",
    "cap_net_raw=ep",
    "cap_chown,cap_kill=p",
    "cap_net_bind_service=ei",
    "cap_setuid=ep cap_setgid=eip cap_checkpoint_restore=ei",
    "cap_chown=p cap_fowner=ip cap_fsetid=i",
];

/// Whether the text that is written for an attribute is the one that says it.
fn is_written(alloc: Global, text: &[u8]) -> Result<bool, NoMemory> {
    let Ok(caps) = read_text(text) else {
        return Ok(false);
    };
    let written = print_text(alloc, &caps)?;
    let is_same = written.items() == text;
    drop(written);
    Ok(is_same)
}

#[test]
fn texts_are_written_as_they_were_read(rt: HostRuntime) -> Result<(), Fail> {
    for text in WRITTEN {
        let is_written = is_written(rt.alloc(), text.as_bytes())?;
        assert!(rt; is_written, "{text}");
    }
    Ok(())
}

/// An attribute of version 2.
fn attribute(perm: u64, inh: u64, effective: bool) -> FileCaps {
    FileCaps {
        version: 2,
        perm: CapSet::cut(perm),
        inh: CapSet::cut(inh),
        effective,
        root: 0,
    }
}

/// How many attributes are written and read.
const MANY: u32 = 10_000;

/// The next number of a linear congruential generator.
fn next(number: u64) -> u64 {
    number
        .wrapping_mul(6_364_136_223_846_793_005)
        .wrapping_add(1_442_695_040_888_963_407)
}

/// Whether the text of an attribute says it.
fn is_said(alloc: Global, caps: &FileCaps) -> Result<bool, NoMemory> {
    let text = print_text(alloc, caps)?;
    let is_said = read_text(text.items()) == Ok(*caps);
    drop(text);
    Ok(is_said)
}

/// The first of many attributes, by its number, whose text says another. The high bits of a number
/// are its sets; where both are empty nothing is effective.
fn first_other(alloc: Global) -> Result<Option<u32>, NoMemory> {
    let mut number = 0;
    for count in 0..MANY {
        let perm = next(number);
        let inh = next(perm);
        number = next(inh);
        let caps = attribute(perm >> 23, inh >> 23, number >> 63 == 1);
        if (caps.perm.bits() | caps.inh.bits() != 0 || !caps.effective) && !is_said(alloc, &caps)? {
            return Ok(Some(count));
        }
    }
    Ok(None)
}

#[test]
fn what_is_written_is_read(rt: HostRuntime) -> Result<(), Fail> {
    let other = first_other(rt.alloc())?;
    assert!(rt; other.is_none(), "{other:?}");
    Ok(())
}
