//! The event of each stage of a line.
ghost use Rattle.std.specs.Prelude.{◌≡◌, ◌≤◌, ℕ, Some, IfOk, OnErr, IfSome};
ghost use Rattle.cred_ids.specs.Limits.{LINE_LIMIT};
ghost use Rattle.cred_copies.specs.Lists.{EventHoldsList};
ghost use Rattle.cred_event.specs.declared.content.Content.TheVariants as content;
ghost use Rattle.cred_event.specs.declared.event.Event.TheVariants as event;
ghost use Rattle.cred_event.specs.declared.event.Side.TheVariants.{Subjective, Objective};
ghost use Rattle.cred_model.specs.Course as spec;

use cred_copies::copy_event;
use cred_event::{Change, Content, Event, FileCall, Query, Side, Stage};
use cred_ids::{NoMemory, limits};
use cred_record::{PtraceMode, Want, copy_attr};

/// Whether a line with this content makes events.
pub(crate) fn makes_events(content: &Content) -> bool
    ensures { result ≡ spec.makes_events content.now }
{
    !matches!(content, Content::Nothing)
}

/// The event of a stage, or none where a line with this content has no such stage.
///
/// # Errors
///
/// `NoMemory` where the list of a `setgroups`, or the bytes of an attribute, could not be copied.
#[inline(always)]
pub(crate) fn event_in(
    line: u32,
    content: &Content,
    stage: Stage,
) -> Result<Option<Event>, NoMemory>
    requires { line ≤ LINE_LIMIT }
    ensures event { IfOk result (λ event. event ≡ spec.event_in line content.now stage) }
    ensures refusal { OnErr result (IfSome (spec.event_in line content.now stage) EventHoldsList) }
{
    Ok(match (content, stage) {
        (Content::One(event), Stage::First) => Some(copy_event(event)?),
        (Content::Id { task, call }, Stage::First) => Some(Event::Begin {
            task: *task,
            call: call.copy()?,
        }),
        (Content::Id { .. }, Stage::Acting) => Some(Event::Act { broadcast: line }),
        (Content::Question { task, query }, _) => question_event(line, *task, *query, stage),
        (
            Content::Open {
                task,
                file,
                want,
                fd,
            },
            _,
        ) => { open_event(line, *task, *file, *want, *fd, stage) }
        (Content::Fcap { fd, cap, .. }, _) => fcap_event(line, *fd, *cap, stage),
        (Content::Signal { task, to }, _) => signal_event(line, *task, *to, stage),
        (Content::Ptrace { task, to, mode }, _) => ptrace_event(line, *task, *to, *mode, stage),
        (Content::Change { task, change }, _) => change_event(line, *task, *change, stage),
        (Content::Access { task, file, want }, _) => {
            access_event(line, *task, *file, *want, stage)
        }
        (Content::OnFile { task, call }, _) => file_event(line, *task, call, stage)?,
        _ => None,
    })
}

/// The label of what a line holds, which is its first one.
#[inline(always)]
pub fn hold_label(line: u32) -> u32
    requires { line ≤ LINE_LIMIT }
    ensures { result ≡ spec.hold_label line }
{
    limits::FIRST_LINE_LABEL + limits::LABELS_A_LINE * line
}

/// The label of the new credential that a line prepares.
#[inline(always)]
pub fn new_label(line: u32) -> u32
    requires { line ≤ LINE_LIMIT }
    ensures { result ≡ spec.new_label line }
{
    hold_label(line) + 1
}

/// The label of what a line holds of the task that it signals or looks into. Such a line prepares
/// nothing.
fn target_label(line: u32) -> u32
    requires { line ≤ LINE_LIMIT }
    ensures { result ≡ spec.target_label line }
{
    hold_label(line) + 1
}

/// The label of what access(2) asks by.
fn access_label(line: u32) -> u32
    requires { line ≤ LINE_LIMIT }
    ensures { result ≡ spec.access_label line }
{
    hold_label(line) + 2
}

/// The label takes hold of the credential that the task acts with.
fn take(label: u32, task: u32) -> Option<Event>
    ensures { result ≡ Some (event.Take label task Subjective) }
{
    Some(Event::Take {
        label,
        task,
        side: Side::Subjective,
    })
}

/// The event of a call on a file, which is decided on the hold's credential.
fn calling(hold: u32, call: &FileCall) -> Result<Event, NoMemory>
    ensures event { IfOk result (λ event. event ≡ spec.calling hold call.now) }
    ensures refusal { OnErr result (EventHoldsList (spec.calling hold call.now)) }
{
    Ok(match call {
        FileCall::Chown { file, owner, group } => Event::Chown {
            hold,
            file: *file,
            owner: *owner,
            group: *group,
        },
        FileCall::Chmod { file, mode } => Event::Chmod {
            hold,
            file: *file,
            mode: *mode,
        },
        FileCall::SetAttr { file, attr } => Event::SetAttr {
            hold,
            file: *file,
            attr: copy_attr(attr)?,
        },
        FileCall::Stat { file } => Event::Stat { hold, file: *file },
    })
}

fn question_event(line: u32, task: u32, query: Query, stage: Stage) -> Option<Event>
    requires { line ≤ LINE_LIMIT }
    ensures { result ≡ spec.event_in line (content.Question task query) stage }
{
    let label = hold_label(line);
    match stage {
        Stage::First => take(label, task),
        Stage::Asking => Some(Event::Ask { label, query }),
        Stage::Releasing => Some(Event::Release { label }),
        _ => None,
    }
}

fn open_event(line: u32, task: u32, file: u32, want: Want, fd: u32, stage: Stage) -> Option<Event>
    requires { line ≤ LINE_LIMIT }
    ensures { result ≡ spec.event_in line (content.Open task file want fd) stage }
{
    let hold = hold_label(line);
    match stage {
        Stage::First => take(hold, task),
        Stage::Opening => Some(Event::OpenFile {
            hold,
            file,
            want,
            fd,
        }),
        Stage::Releasing => Some(Event::Release { label: hold }),
        _ => None,
    }
}

/// A question about a capability of a file's opener. None of its events names the task.
fn fcap_event(line: u32, fd: u32, cap: u32, stage: Stage) -> Option<Event>
    requires { line ≤ LINE_LIMIT }
    ensures { (task : ℕ) → result ≡ spec.event_in line (content.Fcap task fd cap) stage }
{
    let label = hold_label(line);
    match stage {
        Stage::First => Some(Event::TakeFile { label, fd }),
        Stage::Asking => Some(Event::Ask {
            label,
            query: Query::Capable(cap),
        }),
        Stage::Releasing => Some(Event::Release { label }),
        _ => None,
    }
}

/// The label takes hold of the credential that the task is acted on by.
fn take_target(label: u32, task: u32) -> Option<Event>
    ensures { result ≡ Some (event.Take label task Objective) }
{
    Some(Event::Take {
        label,
        task,
        side: Side::Objective,
    })
}

fn signal_event(line: u32, task: u32, to: u32, stage: Stage) -> Option<Event>
    requires { line ≤ LINE_LIMIT }
    ensures { result ≡ spec.event_in line (content.Signal task to) stage }
{
    let hold = hold_label(line);
    let target = target_label(line);
    match stage {
        Stage::First => take(hold, task),
        Stage::TakingTarget => take_target(target, to),
        Stage::Signalling => Some(Event::Signal {
            from: task,
            hold,
            to,
            target,
        }),
        Stage::ReleasingTarget => Some(Event::Release { label: target }),
        Stage::Releasing => Some(Event::Release { label: hold }),
        _ => None,
    }
}

fn ptrace_event(line: u32, task: u32, to: u32, mode: PtraceMode, stage: Stage) -> Option<Event>
    requires { line ≤ LINE_LIMIT }
    ensures { result ≡ spec.event_in line (content.Ptrace task to mode) stage }
{
    let hold = hold_label(line);
    let target = target_label(line);
    match stage {
        Stage::First => take(hold, task),
        Stage::TakingTarget => take_target(target, to),
        Stage::Tracing => Some(Event::Ptrace {
            from: task,
            hold,
            to,
            target,
            mode,
        }),
        Stage::ReleasingTarget => Some(Event::Release { label: target }),
        Stage::Releasing => Some(Event::Release { label: hold }),
        _ => None,
    }
}

fn change_event(line: u32, task: u32, change: Change, stage: Stage) -> Option<Event>
    requires { line ≤ LINE_LIMIT }
    ensures { result ≡ spec.event_in line (content.Change task change) stage }
{
    let hold = hold_label(line);
    let label = new_label(line);
    match stage {
        Stage::First => take(hold, task),
        Stage::Preparing => Some(Event::Prepare { label, task, hold }),
        Stage::Altering => Some(Event::Alter { label, change }),
        Stage::Committing => Some(Event::Commit { label }),
        Stage::Aborting => Some(Event::Abort { label }),
        Stage::Releasing | Stage::Retrying => Some(Event::Release { label: hold }),
        _ => None,
    }
}

fn file_event(
    line: u32,
    task: u32,
    call: &FileCall,
    stage: Stage,
) -> Result<Option<Event>, NoMemory>
    requires { line ≤ LINE_LIMIT }
    ensures event { IfOk result
        (λ event. event ≡ spec.event_in line (content.OnFile task call.now) stage) }
    ensures refusal { OnErr result
        (IfSome (spec.event_in line (content.OnFile task call.now) stage) EventHoldsList) }
{
    let hold = hold_label(line);
    match stage {
        Stage::First => Ok(take(hold, task)),
        Stage::Calling => Ok(Some(calling(hold, call)?)),
        Stage::Releasing => Ok(Some(Event::Release { label: hold })),
        _ => Ok(None),
    }
}

fn access_event(line: u32, task: u32, file: u32, want: Want, stage: Stage) -> Option<Event>
    requires { line ≤ LINE_LIMIT }
    ensures { result ≡ spec.event_in line (content.Access task file want) stage }
{
    let hold = hold_label(line);
    let label = new_label(line);
    let access = access_label(line);
    match stage {
        Stage::First => take(hold, task),
        Stage::Preparing => Some(Event::Prepare { label, task, hold }),
        Stage::Altering => Some(Event::Alter {
            label,
            change: Change::Access,
        }),
        Stage::Overriding => Some(Event::Override { task, label }),
        Stage::TakingAccess => take(access, task),
        Stage::Asking => Some(Event::Ask {
            label: access,
            query: Query::Check { file, want },
        }),
        Stage::ReleasingAccess => Some(Event::Release { label: access }),
        Stage::Reverting => Some(Event::Revert { task }),
        Stage::Aborting => Some(Event::Abort { label }),
        Stage::Releasing => Some(Event::Release { label: hold }),
        _ => None,
    }
}
