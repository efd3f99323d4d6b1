//! One line of a run in order, whose entries are written as they are made.
//!
//! The lines that are run most are straight: a question, a change, an id call, and a line that is
//! one take or one release. Each makes its events one after another, so that none is built,
//! entered in a list and read back. What it makes is still the line's course, by proof. Any other
//! line goes by its course.
ghost use Rattle.std.specs.Prelude.{◌≡◌, ◌<◌, [], length, OnOk};
ghost use Rattle.cred_event.specs.declared.content.Content.TheVariants as content;
ghost use Rattle.cred_event.specs.declared.event.Event.TheVariants as event;
ghost use Rattle.cred_event.specs.declared.event.Side.TheVariants.{Subjective};
ghost use Rattle.cred_commands.specs.Order.{HasRun};
ghost use Rattle.cred_commands.specs.Writing.{HasContent, WritesLine};

use crate::line::run_line;
use crate::written::{
    CommitOutcome, abort, act, alter, ask, begin, commit, prepare, release, take,
};
use cred_buffer::ReportBuffer;
use cred_course::{hold_label, new_label};
use cred_event::{Change, Content, Entry, Event, Query, Side};
use cred_hold::Cells;
use cred_ids::{NoMemory, limits};
use cred_record::IdCall;
use cred_script::Script;
use cred_state::State;

/// Runs the next line to its end, the one after the `past` lines that have run, and writes the text
/// of its entries. `entries` is a list that a line may use.
///
/// # Errors
///
/// `NoMemory` if an allocation of an event, of the state or of the buffer fails.
pub fn write_line(
    state: &mut State,
    cells: &Cells,
    script: &Script,
    past: u32,
    entries: &mut Vec<Entry>,
    out: &mut ReportBuffer,
) -> Result<(), NoMemory>
    requires own { state.old.words.id ≡ cells.now }
    requires out { state.old.words.out ≡ [] }
    requires within { past < length script.now.lines }
    requires run { HasRun script.now past state.old.state }
    ensures runs { OnOk result (WritesLine script.now past state.old.state state.new.state
        out.old out.new) }
    ensures words { state.new.words ≡ state.old.words }
{
    // Called for its clause alone: no script has more lines than the limit, so there is a next
    // number.
    let _ = script.lines();
    let Some((_, content)) = script.line(past + 1) else {
        return Ok(());
    };
    match content {
        Content::Question { task, query } => {
            question(state, cells, script, past, *task, *query, out)
        }
        Content::Change { task, change } => change_of(
            state, cells, script, past, *task, change, out,
        ),
        Content::Id { task, call } => id_call(state, cells, script, past, *task, call, out),
        Content::One(
            Event::Take {
                label,
                task,
                side: Side::Subjective,
            },
        ) => one_take(state, script, past, *label, *task, out),
        Content::One(Event::Release { label }) => one_release(state, script, past, *label, out),
        _ => by_course(state, cells, script, past, entries, out),
    }
}

/// A line that goes by its course: its entries are listed first.
#[inline(never)]
fn by_course(
    state: &mut State,
    cells: &Cells,
    script: &Script,
    past: u32,
    entries: &mut Vec<Entry>,
    out: &mut ReportBuffer,
) -> Result<(), NoMemory>
    requires own { state.old.words.id ≡ cells.now }
    requires out { state.old.words.out ≡ [] }
    requires within { past < length script.now.lines }
    requires run { HasRun script.now past state.old.state }
    ensures runs { OnOk result (WritesLine script.now past state.old.state state.new.state
        out.old out.new) }
    ensures words { state.new.words ≡ state.old.words }
{
    entries.clear();
    run_line(state, cells, script, past, entries)?;
    'entries: for entry in entries.iter() {
        out.write_entry(script, entry)?;
    }
    Ok(())
}

/// A line that is one take of the credential that a task acts with.
#[inline(always)]
fn one_take(
    state: &mut State,
    script: &Script,
    past: u32,
    label: u32,
    task: u32,
    out: &mut ReportBuffer,
) -> Result<(), NoMemory>
    requires run { HasRun script.now past state.old.state }
    requires here { HasContent script.now past (content.One (event.Take label task Subjective)) }
    ensures runs { OnOk result (WritesLine script.now past state.old.state state.new.state
        out.old out.new) }
    ensures words { state.new.words ≡ state.old.words }
{
    let _ = script.lines();
    take(state, script, past + 1, label, task, out)?;
    Ok(())
}

/// A line that is one release.
#[inline(always)]
fn one_release(
    state: &mut State,
    script: &Script,
    past: u32,
    label: u32,
    out: &mut ReportBuffer,
) -> Result<(), NoMemory>
    requires run { HasRun script.now past state.old.state }
    requires here { HasContent script.now past (content.One (event.Release label)) }
    ensures runs { OnOk result (WritesLine script.now past state.old.state state.new.state
        out.old out.new) }
    ensures words { state.new.words ≡ state.old.words }
{
    let _ = script.lines();
    release(state, script, past + 1, label, out)
}

/// A line that asks a question of the credential that a task acts with.
#[inline(never)]
fn question(
    state: &mut State,
    cells: &Cells,
    script: &Script,
    past: u32,
    task: u32,
    query: Query,
    out: &mut ReportBuffer,
) -> Result<(), NoMemory>
    requires own { state.old.words.id ≡ cells.now }
    requires out { state.old.words.out ≡ [] }
    requires run { HasRun script.now past state.old.state }
    requires here { HasContent script.now past (content.Question task query) }
    ensures runs { OnOk result (WritesLine script.now past state.old.state state.new.state
        out.old out.new) }
    ensures words { state.new.words ≡ state.old.words }
{
    let _ = script.lines();
    let line = past + 1;
    let label = hold_label(line);
    if !take(state, script, line, label, task, out)? {
        return Ok(());
    }
    ask(state, cells, script, line, label, query, out)?;
    release(state, script, line, label, out)
}

/// A line that changes a credential: what is prepared, changed and committed is prepared again
/// where the commit came too late, as often as a line may try.
#[inline(never)]
fn change_of(
    state: &mut State,
    cells: &Cells,
    script: &Script,
    past: u32,
    task: u32,
    change: &Change,
    out: &mut ReportBuffer,
) -> Result<(), NoMemory>
    requires own { state.old.words.id ≡ cells.now }
    requires out { state.old.words.out ≡ [] }
    requires run { HasRun script.now past state.old.state }
    requires here { HasContent script.now past (content.Change task change.now) }
    ensures runs { OnOk result (WritesLine script.now past state.old.state state.new.state
        out.old out.new) }
    ensures words { state.new.words ≡ state.old.words }
{
    let _ = script.lines();
    let line = past + 1;
    let (hold, label) = (hold_label(line), new_label(line));
    let mut tries = 1;
    'tries: while tries <= limits::TRIES {
        if !take(state, script, line, hold, task, out)? {
            return Ok(());
        }
        if !prepare(state, cells, script, line, label, task, hold, out)? {
            return release(state, script, line, hold, out);
        }
        if !alter(state, cells, script, line, label, change, out)? {
            abort(state, script, line, label, out)?;
            return release(state, script, line, hold, out);
        }
        match commit(state, cells, script, line, label, out)? {
            CommitOutcome::Done => return release(state, script, line, hold, out),
            CommitOutcome::Late => release(state, script, line, hold, out)?,
            CommitOutcome::Refused => {
                abort(state, script, line, label, out)?;
                return release(state, script, line, hold, out);
            }
        }
        tries += 1;
    }
    Ok(())
}

/// A line that is an id call: the task makes its step, and then the other threads of its process,
/// one after another.
#[inline(never)]
fn id_call(
    state: &mut State,
    cells: &Cells,
    script: &Script,
    past: u32,
    task: u32,
    call: &IdCall,
    out: &mut ReportBuffer,
) -> Result<(), NoMemory>
    requires own { state.old.words.id ≡ cells.now }
    requires out { state.old.words.out ≡ [] }
    requires run { HasRun script.now past state.old.state }
    requires here { HasContent script.now past (content.Id task call.now) }
    ensures runs { OnOk result (WritesLine script.now past state.old.state state.new.state
        out.old out.new) }
    ensures words { state.new.words ≡ state.old.words }
{
    let _ = script.lines();
    let line = past + 1;
    let mut wait = begin(state, cells, script, line, task, call, out)?;
    'acts: while wait {
        wait = act(state, cells, script, line, out)?;
    }
    Ok(())
}
