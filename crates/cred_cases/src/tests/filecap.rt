//! Attributes as no script has them: bytes that are written, none at all, and a task in no user
//! namespace.
use cred_filecap::{AttrRefusal, counts, decode, encode};
use cred_ids::NoMemory;
use std::alloc::Global;
use std::test::Fail;

/// In version 1: the permitted set with every bit, and every other one in the inheritable set.
const OLDEST: [u8; 12] = [0, 0, 0, 1, 0xff, 0xff, 0xff, 0xff, 0xaa, 0xaa, 0xaa, 0xaa];

/// cap_net_raw=ep, in version 2.
const NET_RAW: [u8; 20] = [
    1, 0, 0, 2, 0, 0x20, 0, 0, 0, 0, 0, 0, 0, 0, 0, 0, 0, 0, 0, 0,
];

/// The same in version 3, for the user namespace whose root is user 100000.
const NAMESPACED: [u8; 24] = [
    1, 0, 0, 3, 0, 0x20, 0, 0, 0, 0, 0, 0, 0, 0, 0, 0, 0, 0, 0, 0, 0xa0, 0x86, 1, 0,
];

/// The permitted set with every bit, also those that no capability has, and without the effective
/// flag.
const PERMITTED: [u8; 20] = [
    0, 0, 0, 2, 0xff, 0xff, 0xff, 0xff, 0, 0, 0, 0, 0xff, 0xff, 0xff, 0xff, 0, 0, 0, 0,
];

/// The inheritable set and all flags so, and a root id that is no id.
const INHERITABLE: [u8; 24] = [
    0xff, 0xff, 0xff, 3, 0, 0, 0, 0, 0xff, 0xff, 0xff, 0xff, 0, 0, 0, 0, 0xff, 0xff, 0xff, 0xff,
    0xff, 0xff, 0xff, 0xff,
];

/// Permitted capabilities 1 and 40, inheritable capabilities 31 and 32.
const MIXED: [u8; 20] = [
    0, 0, 0, 2, 2, 0, 0, 0, 0, 0, 0, 0x80, 0, 1, 0, 0, 1, 0, 0, 0,
];

/// The permitted set as it is written: with the bits of capabilities alone.
const PERMITTED_ALONE: [u8; 20] = [
    0, 0, 0, 2, 0xff, 0xff, 0xff, 0xff, 0, 0, 0, 0, 0xff, 1, 0, 0, 0, 0, 0, 0,
];

/// The inheritable set so, and the effective flag alone.
const INHERITABLE_ALONE: [u8; 24] = [
    1, 0, 0, 3, 0, 0, 0, 0, 0xff, 0xff, 0xff, 0xff, 0, 0, 0, 0, 0xff, 1, 0, 0, 0xff, 0xff, 0xff,
    0xff,
];

/// Attributes, and how each is written.
const WRITTEN: [(&[u8], &[u8]); 6] = [
    (&OLDEST, &OLDEST),
    (&NET_RAW, &NET_RAW),
    (&NAMESPACED, &NAMESPACED),
    (&PERMITTED, &PERMITTED_ALONE),
    (&INHERITABLE, &INHERITABLE_ALONE),
    (&MIXED, &MIXED),
];

/// Whether what the bytes spell is written so.
fn is_written(alloc: Global, bytes: &[u8], written: &[u8]) -> Result<bool, NoMemory> {
    let Ok(caps) = decode(bytes) else {
        return Ok(false);
    };
    let attr = encode(alloc, &caps)?;
    let is_same = attr.items() == written;
    drop(attr);
    Ok(is_same)
}

#[test]
fn what_is_written_is_what_was_read(rt: HostRuntime) -> Result<(), Fail> {
    for (bytes, written) in WRITTEN {
        let is_written = is_written(rt.alloc(), bytes, written)?;
        assert!(rt; is_written, "{bytes:?}");
    }
    Ok(())
}

#[test]
fn no_bytes_have_no_revision(rt: HostRuntime) {
    assert!(rt; decode(&[]).err() == Some(AttrRefusal::BadLength(0)));
}

#[test]
fn version_2_counts_in_no_namespace_too(rt: HostRuntime) -> Result<(), Fail> {
    for (bytes, answer) in [(NET_RAW.as_slice(), true), (&NAMESPACED, false)] {
        let caps = decode(bytes).map_err(|_| "refused")?;
        assert!(rt; counts(&caps, &[]) == answer);
    }
    Ok(())
}
