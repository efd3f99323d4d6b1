//! Whether a task may read, write, execute or search a file.
ghost use Rattle.std.specs.Prelude.{◌≡◌};
ghost use Rattle.cred_record.specs.Credential.{Credential};
ghost use Rattle.cred_rules.specs.Access.{is_asked_within, override_passes, read_search_passes};
ghost use Rattle.cred_rules.specs.Access.{may};

use crate::class::class_of;
use crate::mode::{has_execute_bit, permits};
use cred_caps::{Cap, CapSet};
use cred_ids::{Groups, Ids4};
use cred_record::{Cred, FileInfo, FileKind, Want};

/// Whether all that is asked for is permitted.
fn is_asked_within(asked: Want, permitted: Want) -> bool
    ensures { result ≡ is_asked_within asked permitted }
{
    (!asked.r || permitted.r) && (!asked.w || permitted.w) && (!asked.x || permitted.x)
}

/// Whether CAP_DAC_OVERRIDE passes what the bits do not permit: not the execution of a file that
/// nobody may execute.
fn override_passes(file: &FileInfo, asked: Want) -> bool
    ensures { result ≡ override_passes file.now asked }
{
    file.kind == FileKind::Directory || !asked.x || has_execute_bit(file.mode)
}

/// Whether CAP_DAC_READ_SEARCH passes it: to read a file, or to read or search a directory.
fn read_search_passes(file: &FileInfo, asked: Want) -> bool
    ensures { result ≡ read_search_passes file.now asked }
{
    let reads = asked.r && !asked.w && !asked.x;
    reads || file.kind == FileKind::Directory && !asked.w
}

/// Whether a task with this credential may do to the file all that it asks for (path_resolution(7),
/// "Permissions" and "Bypassing permission checks"; capabilities(7)).
///
/// The mode's bits of one class decide. They are the owner's if the filesystem user id is the
/// file's owner; else the group's if the filesystem group id or a supplementary group is the
/// file's group; else the others'. Where they do not permit all that is asked for, two capabilities
/// of the effective set can pass the whole of it. CAP_DAC_OVERRIDE passes all but the execution of
/// a file, other than a directory, without an execute bit. CAP_DAC_READ_SEARCH passes reading
/// alone, and on a directory all but writing. Who asks for nothing may do it.
pub fn may(cred: &Cred, file: &FileInfo, want: Want) -> bool
    ensures { result ≡ may cred.now file.now want }
{
    may_by(&cred.uid, &cred.gid, &cred.groups, cred.eff, file, want)
}

/// Whether a task with these ids, these groups and this effective set may do to the file all that
/// it asks for: all that `may` asks of the credential.
#[inline(always)]
pub fn may_by(
    uid: &Ids4,
    gid: &Ids4,
    groups: &Groups,
    effective: CapSet,
    file: &FileInfo,
    want: Want,
) -> bool
    ensures { (cred : Credential) → cred.uid ≡ uid.now → cred.gid ≡ gid.now
        → cred.groups ≡ groups.now → cred.eff ≡ effective → result ≡ may cred file.now want }
{
    is_asked_within(want, permits(file.mode, class_of(uid, gid, groups, file)))
        || effective.has(Cap::DAC_OVERRIDE) && override_passes(file, want)
        || effective.has(Cap::DAC_READ_SEARCH) && read_search_passes(file, want)
}
