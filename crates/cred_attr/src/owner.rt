//! chown(2).
ghost use Rattle.std.specs.Prelude.{◌≡◌, IfOk, None, if◌then◌else◌};
ghost use Rattle.cred_record.specs.Answer.{AnswersBy};
ghost use Rattle.cred_record.specs.File.{IsMode};
ghost use Rattle.cred_rules.specs.Files as spec;
ghost use Rattle.cred_rules.specs.SetId.{is_given};

use crate::mode::without;
use crate::rights::{in_group, owns};
use cred_access::{EXECUTE, GROUP_EXECUTE, SET_GROUP, SET_USER, capable, has_any};
use cred_caps::Cap;
use cred_ids::{Arg, Id, NoMemory};
use cred_record::{Attr, Cred, FileInfo, FileKind, Refusal, copy_attr};

/// The id that an argument leaves.
fn chosen(old: Id, arg: &Arg) -> Id
    ensures { result ≡ spec.chosen old arg.now }
{
    match arg {
        Arg::Keep => old,
        Arg::Set(id) => *id,
    }
}

/// Whether an argument is an id.
fn is_given(arg: &Arg) -> bool
    ensures { result ≡ is_given arg.now }
{
    match arg {
        Arg::Keep => false,
        Arg::Set(_) => true,
    }
}

/// Whether the owner of the file may give it this group.
fn takes_group(cred: &Cred, file: &FileInfo, group: &Arg) -> bool
    ensures { result ≡ spec.takes_group cred.now file.now group.now }
{
    match group {
        Arg::Keep => true,
        Arg::Set(id) => *id == file.group || in_group(cred, *id),
    }
}

/// Whether the task may give the file this owner and this group as its owner.
fn may_as_owner(cred: &Cred, file: &FileInfo, owner: &Arg, group: &Arg) -> bool
    ensures { result ≡ spec.may_as_owner cred.now file.now owner.now group.now }
{
    owns(cred, file) && chosen(file.owner, owner) == file.owner && takes_group(cred, file, group)
}

/// Whether the task may give the file this owner and this group.
fn may_chown(cred: &Cred, file: &FileInfo, owner: &Arg, group: &Arg) -> bool
    ensures { result ≡ spec.may_chown cred.now file.now owner.now group.now }
{
    let given = is_given(owner) || is_given(group);
    capable(cred, Cap::CHOWN) || !given || may_as_owner(cred, file, owner, group)
}

/// Whether the file loses its set-id bits and its attribute.
fn strips(file: &FileInfo, owner: &Arg, group: &Arg) -> bool
    ensures { result ≡ spec.strips file.now owner.now group.now }
{
    let given = is_given(owner) || is_given(group);
    given && file.kind == FileKind::Regular && has_any(file.mode, EXECUTE)
}

/// The mode without the set-id bits. The set-group-ID bit of a file that its group can't execute is
/// none.
fn stripped(mode: u16) -> u16
    requires { IsMode mode }
    ensures value { result ≡ spec.stripped mode }
    ensures small { IsMode result }
{
    if has_any(mode, GROUP_EXECUTE) {
        without(without(mode, SET_USER), SET_GROUP)
    } else {
        without(mode, SET_USER)
    }
}

/// The mode that the file has then.
fn mode_left(file: &FileInfo, strips: bool) -> u16
    ensures value { result ≡ (if strips then spec.stripped file.now.mode else file.now.mode) }
    ensures small { IsMode result }
{
    if strips {
        stripped(file.mode)
    } else {
        file.mode
    }
}

/// The attribute that it has then.
fn attr_left(file: &FileInfo, strips: bool) -> Result<Option<Attr>, NoMemory>
    ensures { IfOk result (λ attr. attr ≡ (if strips then None else file.now.attr)) }
{
    if strips {
        return Ok(None);
    }
    copy_attr(&file.attr)
}

/// The file with another owner and group, as chown(2) gives it. Where one of the two is given, a
/// regular file that someone may execute loses the set-user-ID bit, the set-group-ID bit if its
/// group may execute it, and its capability attribute, whoever calls, and also where the ids are
/// those that it has. Where neither is given nothing changes.
///
/// # Errors
///
/// `Perm` unless the task has CAP_CHOWN, or neither is given, or the task is the file's owner, by
/// its filesystem user id, and the call keeps that owner, and keeps the group or gives one that the
/// task is in; then `Memory` if the attribute could not be copied.
#[tactic(auto, unfolding(cred_rules::specs::Files::chowned))]
pub fn chown(cred: &Cred, file: &FileInfo, owner: Arg, group: Arg) -> Result<FileInfo, Refusal>
    ensures { AnswersBy result (spec.chown cred.now file.now owner group) }
{
    if !may_chown(cred, file, &owner, &group) {
        return Err(Refusal::Perm);
    }
    let strips = strips(file, &owner, &group);
    Ok(FileInfo {
        kind: file.kind,
        owner: chosen(file.owner, &owner),
        group: chosen(file.group, &group),
        mode: mode_left(file, strips),
        nosuid: file.nosuid,
        attr: attr_left(file, strips)?,
    })
}
