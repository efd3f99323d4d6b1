//! Which answers an event may be given. The order is that in which refusals are tested.
ghost use Rattle.std.specs.Prelude.{◌≡◌};
ghost use Rattle.cred_answers.specs.Rows as spec;

use crate::call_rows::{adjust_row, begin_row, raw_row};
use crate::file_rows::{chmod_row, chown_row, set_attr_row, stat_row};
use crate::told_rows::may_tell;
use cred_event::{Answer, Change, Counted, Event, Named, Told};

/// A first task.
fn init_row(answer: &Answer) -> bool
    ensures { result ≡ spec.init_row answer.now }
{
    matches!(
        answer,
        Answer::Busy(_)
            | Answer::Exists {
                what: Named::Task,
                ..
            }
            | Answer::TooMany(Counted::Tasks)
            | Answer::TableFull
            | Answer::Sealed { .. }
    )
}

/// The taking of a credential of a task.
fn take_row(answer: &Answer) -> bool
    ensures { result ≡ spec.take_row answer.now }
{
    matches!(
        answer,
        Answer::NoTask(_)
            | Answer::Exists {
                what: Named::Label,
                ..
            }
            | Answer::TooMany(Counted::Holds)
            | Answer::Sealed { .. }
    )
}

/// The taking of the credential of a file's opener.
fn takefile_row(answer: &Answer) -> bool
    ensures { result ≡ spec.takefile_row answer.now }
{
    matches!(
        answer,
        Answer::Ebadf
            | Answer::Exists {
                what: Named::Label,
                ..
            }
            | Answer::TooMany(Counted::Holds)
            | Answer::Sealed { .. }
    )
}

/// The end of a hold.
fn release_row(answer: &Answer) -> bool
    ensures { result ≡ spec.release_row answer.now }
{
    matches!(answer, Answer::NoHold(_) | Answer::Done)
}

/// A signal, and a question whether a task may look into another.
fn signal_row(answer: &Answer) -> bool
    ensures { result ≡ spec.signal_row answer.now }
{
    matches!(
        answer,
        Answer::NoTask(_) | Answer::NoHold(_) | Answer::Eperm | Answer::Done
    )
}

/// The preparation of a credential.
fn prepare_row(answer: &Answer) -> bool
    ensures { result ≡ spec.prepare_row answer.now }
{
    matches!(
        answer,
        Answer::NoTask(_)
            | Answer::Busy(_)
            | Answer::NoHold(_)
            | Answer::Exists {
                what: Named::Label,
                ..
            }
            | Answer::TooMany(Counted::Prepared)
            | Answer::TableFull
            | Answer::Kept { .. }
    )
}

/// A change by setfsuid(2) or setfsgid(2), which are never refused.
fn setfs_row(answer: &Answer) -> bool
    ensures { result ≡ spec.setfs_row answer.now }
{
    matches!(answer, Answer::NoPrepared(_) | Answer::Was { .. })
}

/// A change by execve(2).
fn exec_row(answer: &Answer) -> bool
    ensures { result ≡ spec.exec_row answer.now }
{
    matches!(
        answer,
        Answer::NoPrepared(_) | Answer::Eacces | Answer::Einval | Answer::Eperm | Answer::Done
    )
}

/// The credential of access(2), which is never refused.
fn access_row(answer: &Answer) -> bool
    ensures { result ≡ spec.access_row answer.now }
{
    matches!(answer, Answer::NoPrepared(_) | Answer::Done)
}

/// A commit.
fn commit_row(answer: &Answer) -> bool
    ensures { result ≡ spec.commit_row answer.now }
{
    matches!(
        answer,
        Answer::NoPrepared(_)
            | Answer::NoTask(_)
            | Answer::Busy(_)
            | Answer::Overridden(_)
            | Answer::Stale { .. }
            | Answer::Sealed { .. }
            | Answer::Executed { .. }
    )
}

/// The end of a preparation.
fn abort_row(answer: &Answer) -> bool
    ensures { result ≡ spec.abort_row answer.now }
{
    matches!(answer, Answer::NoPrepared(_) | Answer::Done)
}

/// An override.
fn override_row(answer: &Answer) -> bool
    ensures { result ≡ spec.override_row answer.now }
{
    matches!(
        answer,
        Answer::NoTask(_) | Answer::NoHold(_) | Answer::TooDeep | Answer::Sealed { .. }
    )
}

/// The end of an override.
fn revert_row(answer: &Answer) -> bool
    ensures { result ≡ spec.revert_row answer.now }
{
    matches!(
        answer,
        Answer::NoTask(_) | Answer::NotOverridden | Answer::Done
    )
}

/// A thread that follows an id call.
fn act_row(answer: &Answer) -> bool
    ensures { result ≡ spec.act_row answer.now }
{
    matches!(
        answer,
        Answer::NoBroadcast(_) | Answer::Aborted { .. } | Answer::Acted { .. }
    )
}

/// The opening of a file.
fn open_row(answer: &Answer) -> bool
    ensures { result ≡ spec.open_row answer.now }
{
    matches!(
        answer,
        Answer::NoHold(_)
            | Answer::Exists {
                what: Named::File,
                ..
            }
            | Answer::Eacces
            | Answer::TooMany(Counted::Files)
            | Answer::Done
    )
}

/// The closing of a descriptor.
fn close_row(answer: &Answer) -> bool
    ensures { result ≡ spec.close_row answer.now }
{
    matches!(answer, Answer::Ebadf | Answer::Done)
}

/// A new thread.
fn spawn_row(answer: &Answer) -> bool
    ensures { result ≡ spec.spawn_row answer.now }
{
    matches!(
        answer,
        Answer::NoTask(_)
            | Answer::Busy(_)
            | Answer::Exists {
                what: Named::Task,
                ..
            }
            | Answer::Overridden(_)
            | Answer::TooMany(Counted::Tasks)
            | Answer::Sealed { .. }
    )
}

/// A new process.
fn fork_row(answer: &Answer) -> bool
    ensures { result ≡ spec.fork_row answer.now }
{
    matches!(
        answer,
        Answer::NoTask(_)
            | Answer::Busy(_)
            | Answer::Exists {
                what: Named::Task,
                ..
            }
            | Answer::Exists {
                what: Named::Process,
                ..
            }
            | Answer::Overridden(_)
            | Answer::TooMany(Counted::Tasks)
            | Answer::Sealed { .. }
    )
}

/// The end of a task.
fn exit_row(answer: &Answer) -> bool
    ensures { result ≡ spec.exit_row answer.now }
{
    matches!(
        answer,
        Answer::NoTask(_) | Answer::Busy(_) | Answer::Overridden(_) | Answer::Done
    )
}

/// A sweep.
fn sweep_row(answer: &Answer) -> bool
    ensures { result ≡ spec.sweep_row answer.now }
{
    matches!(answer, Answer::Done)
}

/// A value for the flag of a process, which is 0 or 1.
fn dumpable_row(value: u32, answer: &Answer) -> bool
    ensures { result ≡ spec.dumpable_row value answer.now }
{
    let is_none = value > 1;
    match answer {
        Answer::NoTask(_) => true,
        Answer::Einval => is_none,
        Answer::Done => !is_none,
        _ => false,
    }
}

/// A question about the flag.
fn dumped_row(answer: &Answer) -> bool
    ensures { result ≡ spec.dumped_row answer.now }
{
    matches!(answer, Answer::NoTask(_) | Answer::Told(Told::Flag(_)))
}

/// Whether a change may be given this answer.
fn may_change(change: Change, answer: &Answer) -> bool
    ensures { result ≡ spec.may_answer_change change answer.now }
{
    match change {
        Change::SetFs(_, _) => setfs_row(answer),
        Change::Adjust(call) => adjust_row(call, answer),
        Change::Exec { .. } => exec_row(answer),
        Change::Access => access_row(answer),
    }
}

/// Whether the event may be given an answer of this form.
pub fn can_answer(event: &Event, answer: &Answer) -> bool
    ensures { result ≡ spec.may_answer event.now answer.now }
{
    match event {
        Event::Init { .. } => init_row(answer),
        Event::Take { .. } => take_row(answer),
        Event::TakeFile { .. } => takefile_row(answer),
        Event::Release { .. } => release_row(answer),
        Event::Ask { query, .. } => may_tell(*query, answer),
        Event::Signal { .. } => signal_row(answer),
        Event::Prepare { .. } => prepare_row(answer),
        Event::Alter { change, .. } => may_change(*change, answer),
        Event::Commit { .. } => commit_row(answer),
        Event::Abort { .. } => abort_row(answer),
        Event::Override { .. } => override_row(answer),
        Event::Revert { .. } => revert_row(answer),
        Event::Begin { call, .. } => begin_row(call, answer),
        Event::Act { .. } => act_row(answer),
        Event::OpenFile { .. } => open_row(answer),
        Event::CloseFile { .. } => close_row(answer),
        Event::Spawn { .. } => spawn_row(answer),
        Event::Fork { .. } => fork_row(answer),
        Event::Exit { .. } => exit_row(answer),
        Event::Sweep => sweep_row(answer),
        Event::Dumpable { value, .. } => dumpable_row(*value, answer),
        Event::Dumped { .. } => dumped_row(answer),
        Event::Ptrace { .. } => signal_row(answer),
        Event::Chown { owner, group, .. } => chown_row(*owner, *group, answer),
        Event::Chmod { .. } => chmod_row(answer),
        Event::SetAttr { attr, .. } => set_attr_row(attr, answer),
        Event::Stat { .. } => stat_row(answer),
        Event::Raw { call, .. } => raw_row(call, answer),
    }
}
