//! chmod(2), and the bits of a mode.
ghost use Rattle.std.specs.Prelude.{◌≡◌, ◌≤◌};
ghost use Rattle.cred_record.specs.Answer.{AnswersBy};
ghost use Rattle.cred_record.specs.File.{IsMode};
ghost use Rattle.cred_rules.specs.Files.{may_chmod, given_mode, chmod};
ghost use Rattle.cred_rules.specs.Modes as modes;

use crate::rights::{in_group, owns};
use cred_access::{SET_GROUP, capable};
use cred_caps::Cap;
use cred_record::{Cred, FileInfo, Refusal, copy_attr};

/// The greatest mode.
const LAST: u16 = 0o7777;

/// The mode with these bits unset.
pub fn without(mode: u16, bits: u16) -> u16
    requires { IsMode bits }
    ensures value { result ≡ modes.without_bits mode bits }
    ensures small { result ≤ mode }
{
    mode & (LAST - bits)
}

/// Whether the task may change the file's mode.
fn may_chmod(cred: &Cred, file: &FileInfo) -> bool
    ensures { result ≡ may_chmod cred.now file.now }
{
    owns(cred, file) || capable(cred, Cap::FOWNER)
}

/// The mode that the file gets, where the caller gives this one.
fn given_mode(cred: &Cred, file: &FileInfo, mode: u16) -> u16
    requires { IsMode mode }
    ensures value { result ≡ given_mode cred.now file.now mode }
    ensures small { IsMode result }
{
    if capable(cred, Cap::FSETID) || in_group(cred, file.group) {
        mode
    } else {
        without(mode, SET_GROUP)
    }
}

/// The file with another mode, as chmod(2) gives it: the set-group-ID bit is left out where the
/// task lacks CAP_FSETID and is not in the file's group.
///
/// # Errors
///
/// `Perm` unless the task is the file's owner, by its filesystem user id, or has CAP_FOWNER; then
/// `Memory` if the attribute could not be copied.
#[tactic(auto, unfolding(cred_rules::specs::Files::chmod))]
pub fn chmod(cred: &Cred, file: &FileInfo, mode: u16) -> Result<FileInfo, Refusal>
    requires { IsMode mode }
    ensures { AnswersBy result (chmod cred.now file.now mode) }
{
    if !may_chmod(cred, file) {
        return Err(Refusal::Perm);
    }
    Ok(FileInfo {
        kind: file.kind,
        owner: file.owner,
        group: file.group,
        mode: given_mode(cred, file, mode),
        nosuid: file.nosuid,
        attr: copy_attr(&file.attr)?,
    })
}
