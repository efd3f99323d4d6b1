//! Events.
ghost use Rattle.std.specs.Prelude.{◌≡◌, IfOk, OnErr, IsSome};
ghost use Rattle.cred_copies.specs.Lists.{EventHoldsList, IsOnFile, MayHoldList};

use cred_event::Event;
use cred_ids::NoMemory;
use cred_record::copy_attr;

/// An equal event.
///
/// # Errors
///
/// `NoMemory` where the list of a `setgroups`, or the bytes of an attribute, could not be copied;
/// no other event takes memory.
#[inline(always)]
pub fn copy_event(e: &Event) -> Result<Event, NoMemory>
    ensures equal { IfOk result (λ copied. copied ≡ e.now) }
    ensures refusal { OnErr result (EventHoldsList e.now) }
{
    match e {
        Event::Begin { task, call } => Ok(Event::Begin {
            task: *task,
            call: call.copy()?,
        }),
        Event::Raw { task, call } => Ok(Event::Raw {
            task: *task,
            call: call.copy()?,
        }),
        Event::Chown { .. } | Event::Chmod { .. } | Event::SetAttr { .. } | Event::Stat { .. } => {
            copy_on_file(e)
        }
        _ => Ok(copy_plain(e)),
    }
}

/// An equal event, of a call on a file: these are rare, and are made apart from the others.
#[inline(never)]
fn copy_on_file(e: &Event) -> Result<Event, NoMemory>
    requires { IsOnFile e.now }
    ensures equal { IfOk result (λ copied. copied ≡ e.now) }
    ensures refusal { OnErr result (EventHoldsList e.now) }
{
    Ok(match e {
        Event::Chown {
            hold,
            file,
            owner,
            group,
        } => Event::Chown {
            hold: *hold,
            file: *file,
            owner: *owner,
            group: *group,
        },
        Event::Chmod { hold, file, mode } => Event::Chmod {
            hold: *hold,
            file: *file,
            mode: *mode,
        },
        Event::SetAttr { hold, file, attr } => Event::SetAttr {
            hold: *hold,
            file: *file,
            attr: copy_attr(attr)?,
        },
        Event::Stat { hold, file } => Event::Stat {
            hold: *hold,
            file: *file,
        },
        _ => unreachable!(),
    })
}

/// An equal event, of one that is no id call and no call on a file.
#[inline(always)]
fn copy_plain(e: &Event) -> Event
    requires calls { MayHoldList e.now → ⊥ }
    requires files { IsOnFile e.now → ⊥ }
    ensures { result ≡ e.now }
{
    match *e {
        Event::Init {
            task,
            process,
            user,
            group,
            ns,
        } => Event::Init {
            task,
            process,
            user,
            group,
            ns,
        },
        Event::Take { label, task, side } => Event::Take { label, task, side },
        Event::TakeFile { label, fd } => Event::TakeFile { label, fd },
        Event::Release { label } => Event::Release { label },
        Event::Ask { label, query } => Event::Ask { label, query },
        Event::Signal {
            from,
            hold,
            to,
            target,
        } => Event::Signal {
            from,
            hold,
            to,
            target,
        },
        Event::Prepare { label, task, hold } => Event::Prepare { label, task, hold },
        Event::Alter { label, change } => Event::Alter { label, change },
        Event::Commit { label } => Event::Commit { label },
        Event::Abort { label } => Event::Abort { label },
        Event::Override { task, label } => Event::Override { task, label },
        Event::Revert { task } => Event::Revert { task },
        Event::Begin { .. }
        | Event::Raw { .. }
        | Event::Chown { .. }
        | Event::Chmod { .. }
        | Event::SetAttr { .. }
        | Event::Stat { .. } => unreachable!(),
        Event::Act { broadcast } => Event::Act { broadcast },
        Event::OpenFile {
            hold,
            file,
            want,
            fd,
        } => Event::OpenFile {
            hold,
            file,
            want,
            fd,
        },
        Event::CloseFile { fd } => Event::CloseFile { fd },
        Event::Spawn { task, child } => Event::Spawn { task, child },
        Event::Fork {
            task,
            child,
            process,
        } => Event::Fork {
            task,
            child,
            process,
        },
        Event::Exit { task } => Event::Exit { task },
        Event::Sweep => Event::Sweep,
        Event::Dumpable { task, value } => Event::Dumpable { task, value },
        Event::Dumped { task } => Event::Dumped { task },
        Event::Ptrace {
            from,
            hold,
            to,
            target,
            mode,
        } => Event::Ptrace {
            from,
            hold,
            to,
            target,
            mode,
        },
    }
}
