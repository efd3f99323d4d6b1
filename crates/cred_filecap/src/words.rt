//! The words of an attribute (linux/capability.h, `struct vfs_ns_cap_data`), each by the place of
//! its first byte.
ghost use Rattle.std.specs.Prelude.{◌≡◌, ◌+◌, ◌*◌, ◌^◌, ◌≤◌, length, if◌then◌else◌};
ghost use Rattle.cred_rules.specs.Attribute.{word_at};

use byteorder::{ByteOrder, LittleEndian};

/// The revision in the top byte, and the flags.
pub const MAGIC: usize = 0;

/// The permitted set, capabilities 0 to 31.
pub const PERM_LOW: usize = 4;

/// The inheritable set, capabilities 0 to 31.
pub const INH_LOW: usize = 8;

/// The permitted set, capabilities from 32.
pub const PERM_HIGH: usize = 12;

/// The inheritable set, capabilities from 32.
pub const INH_HIGH: usize = 16;

/// The root id, in version 3.
pub const ROOT: usize = 20;

/// The place of the revision among the bytes: the top byte of the first word.
pub const REVISION: usize = 3;

/// The word at a place.
pub fn word_at(bytes: &[u8], place: usize) -> u32
    requires { place + 4 ≤ length bytes.now }
    ensures { result ≡ word_at bytes.now place }
{
    LittleEndian::read_u32(&bytes[place..])
}

/// The first word of an attribute of this version, with no other flag than the effective one.
pub fn magic(version: u8, effective: bool) -> u32
    ensures { result ≡ version * 2 ^ 24 + (if effective then 1 else 0) }
{
    u32::from(version) * 0x100_0000 + u32::from(effective)
}
