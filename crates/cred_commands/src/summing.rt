//! The summary of a script that is made from a number.
ghost use Rattle.std.specs.Prelude.{◌≡◌, [], IfOk, string_bytes};
ghost use Rattle.cred_model.specs.State.{opening};
ghost use Rattle.cred_output.specs.Leaves.{IsWriting};
ghost use Rattle.cred_commands.specs.Summing.{IsCount, LeavesSummary, SaysSummary, TellsSequence};
ghost use Rattle.cred_output.specs.Texts as spec;

use crate::line::run_line;
use cred_generate::{Summary, generate};
use cred_hold::Cells;
use cred_ids::NoMemory;
use cred_io::Sink;
use cred_output::{Message, Status, write_message};
use cred_script::Script;
use cred_state::State;
use std::alloc::Global;

/// Runs the script that is made from a number, and writes the summary of its journal.
pub fn run_gen<K: Sink>(alloc: Global, n: u32, sink: &mut K) -> Status
    requires { IsCount n }
    ensures summary { LeavesSummary n result (K.written sink.old) (K.written sink.new) }
    ensures writing { IsWriting result (K.flushed sink.new)
        (K.faults sink.old) (K.faults sink.new) }
{
    write_message(sink, message_of(alloc, n))
}

/// The text of the script's summary, with its status.
fn message_of(alloc: Global, n: u32) -> Result<Message, NoMemory>
    requires { IsCount n }
    ensures { IfOk result (λ message. SaysSummary n message.status message.text.items) }
{
    let script = generate(alloc, n)?;
    let summary = sum_in_order(alloc, &script);
    drop(script);
    Ok(Message::of(Status::Done, summary_text(alloc, summary?)?))
}

/// The summary of the run in which all lines of the script run whole and in order, on this state,
/// before its first event. No journal is kept.
fn sum_lines(
    alloc: Global,
    script: &Script,
    state: &mut State,
    cells: &Cells,
) -> Result<Summary, NoMemory>
    requires own { state.old.words.id ≡ cells.now }
    requires out { state.old.words.out ≡ [] }
    requires opening { state.old.state ≡ opening script.now }
    ensures { IfOk result (λ told. TellsSequence script.now told) }
{
    let mut summary = Summary::new(script);
    let mut entries = Vec::new(alloc);
    let mut past = 0;
    'lines: while past < script.lines() {
        run_line(state, cells, script, past, &mut entries)?;
        summary.add(&entries);
        entries.clear();
        past += 1;
    }
    Ok(summary)
}

/// The same, on a state of its own: to own one is expensive to prove, so nothing else is done here.
fn sum_in_order(alloc: Global, script: &Script) -> Result<Summary, NoMemory>
    ensures { IfOk result (λ told. TellsSequence script.now told) }
{
    let (cells, mut state) = State::new(alloc, script)?;
    let summary = sum_lines(alloc, script, &mut state, &cells);
    drop(state);
    summary
}

/// The text of a summary.
fn summary_text(alloc: Global, told: Summary) -> Result<String, NoMemory>
    ensures { IfOk result (λ text. string_bytes text ≡ spec.summary_text told) }
{
    let Summary {
        lines,
        entries,
        credentials,
        refusals,
    } = told;
    Ok(format!(in alloc;
        "lines {lines} entries {entries} credentials {credentials} refusals {refusals}\n"
    )?)
}
