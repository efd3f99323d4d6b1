//! The versions of an attribute (linux/capability.h, VFS_CAP_REVISION_1 to VFS_CAP_REVISION_3).
ghost use Rattle.std.specs.Prelude.{◌≡◌, ◌==◌, Some, None, if◌then◌else◌};

/// The version that has one word for a set, since Linux 2.6.24.
pub const VERSION_1: u8 = 1;

/// The bytes of an attribute of version 1: three words.
pub const LENGTH_1: usize = 12;

/// The version that has two words for a set, and no root id, since Linux 2.6.25.
pub const VERSION_2: u8 = 2;

/// The bytes of an attribute of version 2: five words.
pub const LENGTH_2: usize = 20;

/// The version that ends with a root id, since Linux 4.14.
pub const VERSION_3: u8 = 3;

/// The bytes of an attribute of version 3: six words.
pub const LENGTH_3: usize = 24;

/// How many bytes an attribute of this revision has. `None` where it is no version.
pub fn length_of(revision: u8) -> Option<usize>
    ensures { result
        ≡ (if revision == 1 then Some 12
        else if revision == 2 then Some 20
        else if revision == 3 then Some 24
        else None) }
{
    match revision {
        VERSION_1 => Some(LENGTH_1),
        VERSION_2 => Some(LENGTH_2),
        VERSION_3 => Some(LENGTH_3),
        _ => None,
    }
}
