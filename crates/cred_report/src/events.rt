//! The text of an event.
ghost use Rattle.std.specs.Prelude.{◌≡◌, ◌≤◌, ◌+◌, ◌++◌, OnOk, codes, decimal};
ghost use Rattle.cred_report.specs.Calls.{call_text};
ghost use Rattle.cred_report.specs.Events.{take_text, trace_text, event_text};
ghost use Rattle.cred_report.specs.Room.{EVENT, BEFORE_EVENT};

use crate::calls::{prepend_call, prepend_change};
use crate::file_events::{prepend_chmod, prepend_chown, prepend_set_attr, prepend_stat};
use crate::pen::Pen;
use crate::questions::{prepend_file, prepend_letters, prepend_query};
use crate::words::{prepend_label, prepend_number, prepend_three, prepend_two, prepend_word};
use cred_event::{Change, Event, Query, Side};
use cred_ids::{Id, NoMemory};
use cred_record::{IdCall, PtraceMode, Want};
use cred_script::Script;

/// Writes the creation of a first task.
fn prepend_init(out: &mut Pen, task: u32, process: u32, user: Id, group: Id, ns: u32)
    requires { EVENT ≤ out.old.room }
    ensures text { out.new.text
        ≡ (codes "init t" ++ decimal task ++ codes " p" ++ decimal process
        ++ codes " " ++ decimal user ++ codes " " ++ decimal group ++ codes " n" ++ decimal ns)
        ++ out.old.text }
    ensures room { out.old.room ≤ out.new.room + EVENT }
{
    prepend_three(out, (" ", user.number()), (" ", group.number()), (" n", ns));
    prepend_two(out, ("init t", task), (" p", process))
}

/// Writes the taking of a credential of a task. Each word is written in an arm of its own, where
/// its length is known, and needs no call.
// Inlined, as is all that many entries need.
#[inline(always)]
fn prepend_take(out: &mut Pen, label: u32, task: u32, side: Side)
    requires { EVENT ≤ out.old.room }
    ensures text { out.new.text
        ≡ (take_text side ++ decimal label ++ codes " t" ++ decimal task) ++ out.old.text }
    ensures room { out.old.room ≤ out.new.room + EVENT }
{
    prepend_number(out, " t", task);
    prepend_label(out, "", label);
    match side {
        Side::Subjective => prepend_word(out, "take h"),
        Side::Objective => prepend_word(out, "takereal h"),
    }
}

/// Writes the question on a label's credential.
#[inline(always)]
fn prepend_ask(out: &mut Pen, script: &Script, label: u32, query: Query) -> Result<(), NoMemory>
    requires { BEFORE_EVENT + EVENT ≤ out.old.room }
    ensures text { OnOk result (out.new.text
        ≡ event_text script.now (Event.Ask label query) ++ out.old.text) }
    ensures room { OnOk result (BEFORE_EVENT ≤ out.new.room) }
{
    prepend_query(out, script, query)?;
    prepend_word(out, " ");
    prepend_label(out, "ask h", label);
    Ok(())
}

/// Writes the signal, each task followed by the label that holds its credential.
fn prepend_signal(out: &mut Pen, from: u32, hold: u32, to: u32, target: u32)
    requires { EVENT ≤ out.old.room }
    ensures text { out.new.text
        ≡ (codes "signal t" ++ decimal from ++ codes " h" ++ decimal hold
        ++ codes " t" ++ decimal to ++ codes " h" ++ decimal target) ++ out.old.text }
    ensures room { out.old.room ≤ out.new.room + EVENT }
{
    prepend_two(out, (" t", to), (" h", target));
    prepend_two(out, ("signal t", from), (" h", hold))
}

/// Writes the question whether a task may look into another, each followed by the label that holds
/// its credential.
fn prepend_ptrace(out: &mut Pen, from: u32, hold: u32, to: u32, target: u32, mode: PtraceMode)
    requires { EVENT ≤ out.old.room }
    ensures text { out.new.text
        ≡ (trace_text mode ++ decimal from ++ codes " h" ++ decimal hold
        ++ codes " t" ++ decimal to ++ codes " h" ++ decimal target) ++ out.old.text }
    ensures room { out.old.room ≤ out.new.room + EVENT }
{
    prepend_two(out, (" t", to), (" h", target));
    prepend_two(out, ("", from), (" h", hold));
    match mode {
        PtraceMode::Fs => prepend_word(out, "ptrace fs t"),
        PtraceMode::Real => prepend_word(out, "ptrace real t"),
    }
}

/// Writes the preparation of a new credential for a task.
#[inline(always)]
fn prepend_prepare(out: &mut Pen, label: u32, task: u32, hold: u32)
    requires { EVENT ≤ out.old.room }
    ensures text { out.new.text
        ≡ (codes "prepare h" ++ decimal label ++ codes " t" ++ decimal task
        ++ codes " h" ++ decimal hold) ++ out.old.text }
    ensures room { out.old.room ≤ out.new.room + EVENT }
{
    prepend_label(out, " h", hold);
    prepend_number(out, " t", task);
    prepend_label(out, "prepare h", label)
}

/// Writes the change of a prepared credential.
#[inline(always)]
fn prepend_alter(out: &mut Pen, script: &Script, label: u32, change: Change) -> Result<(), NoMemory>
    requires { BEFORE_EVENT + EVENT ≤ out.old.room }
    ensures text { OnOk result (out.new.text
        ≡ event_text script.now (Event.Alter label change) ++ out.old.text) }
    ensures room { OnOk result (BEFORE_EVENT ≤ out.new.room) }
{
    prepend_change(out, script, change)?;
    prepend_word(out, " ");
    prepend_label(out, "change h", label);
    Ok(())
}

/// Writes the id call of a task.
#[inline(always)]
fn prepend_begin(out: &mut Pen, task: u32, call: &IdCall) -> Result<(), NoMemory>
    requires { BEFORE_EVENT + EVENT ≤ out.old.room }
    ensures text { OnOk result (out.new.text
        ≡ (codes "begin t" ++ decimal task ++ codes " " ++ call_text call.now) ++ out.old.text) }
    ensures room { OnOk result (BEFORE_EVENT ≤ out.new.room) }
{
    prepend_call(out, call)?;
    prepend_word(out, " ");
    prepend_number(out, "begin t", task);
    Ok(())
}

/// Writes the id call of a thread for itself alone.
fn prepend_raw(out: &mut Pen, task: u32, call: &IdCall) -> Result<(), NoMemory>
    requires { BEFORE_EVENT + EVENT ≤ out.old.room }
    ensures text { OnOk result (out.new.text
        ≡ (codes "raw t" ++ decimal task ++ codes " " ++ call_text call.now) ++ out.old.text) }
    ensures room { OnOk result (BEFORE_EVENT ≤ out.new.room) }
{
    prepend_call(out, call)?;
    prepend_word(out, " ");
    prepend_number(out, "raw t", task);
    Ok(())
}

/// Writes the step of a thread in a broadcast, which is named by the line that began it: mostly
/// that of the entry.
#[inline(always)]
fn prepend_act(out: &mut Pen, broadcast: u32)
    requires { EVENT ≤ out.old.room }
    ensures text { out.new.text ≡ (codes "act " ++ decimal broadcast) ++ out.old.text }
    ensures room { out.old.room ≤ out.new.room + EVENT }
{
    out.line(broadcast);
    prepend_word(out, "act ")
}

/// Writes the opening of a file.
fn prepend_open(
    out: &mut Pen,
    script: &Script,
    hold: u32,
    file: u32,
    want: Want,
    fd: u32,
) -> Result<(), NoMemory>
    requires { BEFORE_EVENT + EVENT ≤ out.old.room }
    ensures text { OnOk result (out.new.text
        ≡ event_text script.now (Event.OpenFile hold file want fd) ++ out.old.text) }
    ensures room { OnOk result (BEFORE_EVENT ≤ out.new.room) }
{
    prepend_number(out, " f", fd);
    prepend_letters(out, want);
    prepend_word(out, " ");
    prepend_file(out, script, file)?;
    prepend_word(out, " ");
    prepend_number(out, "open h", hold);
    Ok(())
}

/// Writes the event.
///
/// # Errors
///
/// `NoMemory` where the buffer cannot grow. Nothing is said of what it holds then.
// Called at one place alone, for each entry.
#[inline(always)]
pub(crate) fn prepend_event(out: &mut Pen, script: &Script, event: &Event) -> Result<(), NoMemory>
    requires { BEFORE_EVENT + EVENT ≤ out.old.room }
    ensures text { OnOk result (out.new.text ≡ event_text script.now event.now ++ out.old.text) }
    ensures room { OnOk result (BEFORE_EVENT ≤ out.new.room) }
{
    match event {
        Event::Init {
            task,
            process,
            user,
            group,
            ns,
        } => prepend_init(out, *task, *process, *user, *group, *ns),
        Event::Take { label, task, side } => prepend_take(out, *label, *task, *side),
        Event::TakeFile { label, fd } => prepend_two(out, ("takefile h", *label), (" f", *fd)),
        Event::Release { label } => prepend_label(out, "drop h", *label),
        Event::Ask { label, query } => prepend_ask(out, script, *label, *query)?,
        Event::Signal {
            from,
            hold,
            to,
            target,
        } => prepend_signal(out, *from, *hold, *to, *target),
        Event::Prepare { label, task, hold } => prepend_prepare(out, *label, *task, *hold),
        Event::Alter { label, change } => prepend_alter(out, script, *label, *change)?,
        Event::Commit { label } => prepend_label(out, "commit h", *label),
        Event::Abort { label } => prepend_label(out, "abort h", *label),
        Event::Override { task, label } => prepend_two(out, ("override t", *task), (" h", *label)),
        Event::Revert { task } => prepend_number(out, "revert t", *task),
        Event::Begin { task, call } => prepend_begin(out, *task, call)?,
        Event::Act { broadcast } => prepend_act(out, *broadcast),
        Event::OpenFile {
            hold,
            file,
            want,
            fd,
        } => prepend_open(out, script, *hold, *file, *want, *fd)?,
        Event::CloseFile { fd } => prepend_number(out, "close f", *fd),
        Event::Spawn { task, child } => prepend_two(out, ("spawn t", *task), (" t", *child)),
        Event::Fork {
            task,
            child,
            process,
        } => { prepend_three(out, ("fork t", *task), (" t", *child), (" p", *process)) }
        Event::Exit { task } => prepend_number(out, "exit t", *task),
        Event::Sweep => prepend_word(out, "sweep"),
        Event::Dumpable { task, value } => prepend_two(out, ("dumpable t", *task), (" ", *value)),
        Event::Dumped { task } => prepend_number(out, "dumped t", *task),
        Event::Ptrace {
            from,
            hold,
            to,
            target,
            mode,
        } => prepend_ptrace(out, *from, *hold, *to, *target, *mode),
        Event::Chown {
            hold,
            file,
            owner,
            group,
        } => prepend_chown(out, script, *hold, *file, *owner, *group)?,
        Event::Chmod { hold, file, mode } => prepend_chmod(out, script, *hold, *file, *mode)?,
        Event::SetAttr { hold, file, attr } => prepend_set_attr(out, script, *hold, *file, attr)?,
        Event::Stat { hold, file } => prepend_stat(out, script, *hold, *file)?,
        Event::Raw { task, call } => prepend_raw(out, *task, call)?,
    }
    Ok(())
}
