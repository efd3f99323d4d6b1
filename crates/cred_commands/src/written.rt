//! Events of a line that are made, each with its entry written as soon as it is answered.
ghost use Rattle.std.specs.Prelude.{◌≡◌, [], ⊤, IfOk};
ghost use Rattle.cred_event.specs.Answers.{is_ok};
ghost use Rattle.cred_event.specs.declared.event.Event.TheVariants as event;
ghost use Rattle.cred_event.specs.declared.event.Side.TheVariants.{Subjective};
ghost use Rattle.cred_model.specs.Course as spec;
ghost use Rattle.cred_sound.specs.Sound.{IsSound};
ghost use Rattle.cred_commands.specs.Writing.{WritesEvent, commit_outcome};

use cred_buffer::ReportBuffer;
use cred_course::some_wait;
use cred_event::{Answer, Change, Query, Side};
use cred_hold::Cells;
use cred_ids::NoMemory;
use cred_record::IdCall;
use cred_script::Script;
use cred_state::State;

/// What a commit came to: it was made; it came too late, as the task has another credential by
/// now; or it was refused.
#[derive(Clone, Copy, Debug, PartialEq, Eq)]
pub enum CommitOutcome {
    /// The task has the new credential.
    Done,
    /// What was prepared is gone.
    Late,
    /// What was prepared is still there.
    Refused,
}

impl CommitOutcome {
    /// What a commit with this answer came to.
    #[inline(always)]
    fn of(answer: &Answer) -> CommitOutcome
        ensures { result ≡ commit_outcome answer.now }
    {
        match answer {
            Answer::Stale { .. } => CommitOutcome::Late,
            _ if answer.is_ok() => CommitOutcome::Done,
            _ => CommitOutcome::Refused,
        }
    }
}

/// The label takes hold of the credential that the task acts with. Returns whether it does.
///
/// # Errors
///
/// `NoMemory` if an allocation of the state or of the buffer fails.
#[inline(always)]
pub fn take(
    state: &mut State,
    script: &Script,
    line: u32,
    label: u32,
    task: u32,
    out: &mut ReportBuffer,
) -> Result<bool, NoMemory>
    ensures made { IfOk result (λ ok. WritesEvent (λ answer. ok ≡ is_ok answer) script.now line
        (event.Take label task Subjective) state.old.state state.new.state out.old out.new) }
    ensures words { state.new.words ≡ state.old.words }
{
    let answer = state.take(label, task, Side::Subjective)?;
    let ok = answer.is_ok();
    out.write_take(script, line, label, task, answer)?;
    Ok(ok)
}

/// The label drops what it holds.
///
/// # Errors
///
/// `NoMemory` if an allocation of the buffer fails.
#[inline(always)]
pub fn release(
    state: &mut State,
    script: &Script,
    line: u32,
    label: u32,
    out: &mut ReportBuffer,
) -> Result<(), NoMemory>
    ensures made { IfOk result (λ _. WritesEvent (λ _. ⊤) script.now line
        (event.Release label) state.old.state state.new.state out.old out.new) }
    ensures words { state.new.words ≡ state.old.words }
{
    let answer = state.release(label);
    out.write_release(script, line, label, answer)
}

/// A question is asked of what the label holds.
///
/// # Errors
///
/// `NoMemory` if an allocation of the state or of the buffer fails.
#[inline(always)]
pub fn ask(
    state: &mut State,
    cells: &Cells,
    script: &Script,
    line: u32,
    label: u32,
    query: Query,
    out: &mut ReportBuffer,
) -> Result<(), NoMemory>
    requires own { state.old.words.id ≡ cells.now }
    requires out { state.old.words.out ≡ [] }
    requires sound { IsSound state.old.state }
    ensures made { IfOk result (λ _. WritesEvent (λ _. ⊤) script.now line
        (event.Ask label query) state.old.state state.new.state out.old out.new) }
    ensures words { state.new.words ≡ state.old.words }
{
    let answer = state.ask(cells, label, query)?;
    out.write_ask(script, line, label, query, answer)
}

/// The label prepares a new credential for the task, from what `hold` holds. Returns whether it
/// does.
///
/// # Errors
///
/// `NoMemory` if an allocation of the state or of the buffer fails.
#[inline(always)]
pub fn prepare(
    state: &mut State,
    cells: &Cells,
    script: &Script,
    line: u32,
    label: u32,
    task: u32,
    hold: u32,
    out: &mut ReportBuffer,
) -> Result<bool, NoMemory>
    requires own { state.old.words.id ≡ cells.now }
    requires out { state.old.words.out ≡ [] }
    ensures made { IfOk result (λ ok. WritesEvent (λ answer. ok ≡ is_ok answer) script.now line
        (event.Prepare label task hold) state.old.state state.new.state out.old out.new) }
    ensures words { state.new.words ≡ state.old.words }
{
    let answer = state.prepare(cells, label, task, hold)?;
    let ok = answer.is_ok();
    out.write_prepare(script, line, label, task, hold, answer)?;
    Ok(ok)
}

/// What the label prepares is changed. Returns whether it is.
///
/// # Errors
///
/// `NoMemory` if an allocation of the state or of the buffer fails.
#[inline(always)]
pub fn alter(
    state: &mut State,
    cells: &Cells,
    script: &Script,
    line: u32,
    label: u32,
    change: &Change,
    out: &mut ReportBuffer,
) -> Result<bool, NoMemory>
    requires own { state.old.words.id ≡ cells.now }
    requires out { state.old.words.out ≡ [] }
    requires sound { IsSound state.old.state }
    ensures made { IfOk result (λ ok. WritesEvent (λ answer. ok ≡ is_ok answer) script.now line
        (event.Alter label change.now) state.old.state state.new.state out.old out.new) }
    ensures words { state.new.words ≡ state.old.words }
{
    let answer = state.alter(cells, script, label, *change)?;
    let ok = answer.is_ok();
    out.write_alter(script, line, label, *change, answer)?;
    Ok(ok)
}

/// What the label prepares becomes the credential of its task. Returns what that came to.
///
/// # Errors
///
/// `NoMemory` if an allocation of the state or of the buffer fails.
#[inline(always)]
pub fn commit(
    state: &mut State,
    cells: &Cells,
    script: &Script,
    line: u32,
    label: u32,
    out: &mut ReportBuffer,
) -> Result<CommitOutcome, NoMemory>
    requires own { state.old.words.id ≡ cells.now }
    requires out { state.old.words.out ≡ [] }
    requires sound { IsSound state.old.state }
    ensures made { IfOk result (λ came. WritesEvent (λ answer. came ≡ commit_outcome answer)
        script.now line (event.Commit label) state.old.state state.new.state out.old out.new) }
    ensures words { state.new.words ≡ state.old.words }
{
    let answer = state.commit(cells, label)?;
    let came = CommitOutcome::of(&answer);
    out.write_commit(script, line, label, answer)?;
    Ok(came)
}

/// What the label prepares is given up.
///
/// # Errors
///
/// `NoMemory` if an allocation of the buffer fails.
#[inline(always)]
pub fn abort(
    state: &mut State,
    script: &Script,
    line: u32,
    label: u32,
    out: &mut ReportBuffer,
) -> Result<(), NoMemory>
    requires { IsSound state.old.state }
    ensures made { IfOk result (λ _. WritesEvent (λ _. ⊤) script.now line
        (event.Abort label) state.old.state state.new.state out.old out.new) }
    ensures words { state.new.words ≡ state.old.words }
{
    let answer = state.abort(label);
    out.write_abort(script, line, label, answer)
}

/// The task makes an id call. Returns whether other threads of its process wait for their step.
///
/// # Errors
///
/// `NoMemory` if an allocation of the state or of the buffer fails.
#[inline(always)]
pub fn begin(
    state: &mut State,
    cells: &Cells,
    script: &Script,
    line: u32,
    task: u32,
    call: &IdCall,
    out: &mut ReportBuffer,
) -> Result<bool, NoMemory>
    requires own { state.old.words.id ≡ cells.now }
    requires out { state.old.words.out ≡ [] }
    requires sound { IsSound state.old.state }
    ensures made { IfOk result (λ wait. WritesEvent (λ answer. wait ≡ spec.some_wait answer)
        script.now line (event.Begin task call.now) state.old.state state.new.state
        out.old out.new) }
    ensures words { state.new.words ≡ state.old.words }
{
    let answer = state.begin(cells, line, task, call)?;
    let wait = some_wait(&answer);
    out.write_begin(script, line, task, call, answer)?;
    Ok(wait)
}

/// The next thread that waits in the line's broadcast makes its step. Returns whether others wait
/// still.
///
/// # Errors
///
/// `NoMemory` if an allocation of the state or of the buffer fails.
#[inline(always)]
pub fn act(
    state: &mut State,
    cells: &Cells,
    script: &Script,
    line: u32,
    out: &mut ReportBuffer,
) -> Result<bool, NoMemory>
    requires own { state.old.words.id ≡ cells.now }
    requires out { state.old.words.out ≡ [] }
    requires sound { IsSound state.old.state }
    ensures made { IfOk result (λ wait. WritesEvent (λ answer. wait ≡ spec.some_wait answer)
        script.now line (event.Act line) state.old.state state.new.state out.old out.new) }
    ensures words { state.new.words ≡ state.old.words }
{
    let answer = state.act(cells, line)?;
    let wait = some_wait(&answer);
    out.write_act(script, line, line, answer)?;
    Ok(wait)
}
