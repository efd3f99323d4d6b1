//! Running a script's lines in order, and writing the entries of each as they are made: no journal
//! is kept.
ghost use Rattle.std.specs.Prelude.{◌≡◌, ◌<◌, ◌⊎◌, [], true, OnOk, OnErr};
ghost use Rattle.std.specs.Io.KnownBytes.{Appends};
ghost use Rattle.cred_ids.specs.Limits.{BYTE_LIMIT};
ghost use Rattle.cred_model.specs.Journal.{IsSequence};
ghost use Rattle.cred_model.specs.State.{opening};
ghost use Rattle.cred_io.specs.Causes.{CountsFaults};
ghost use Rattle.cred_io.specs.Ends.{AppendsPrefix};
ghost use Rattle.cred_output.specs.Ends.{IsForText};
ghost use Rattle.cred_output.specs.Leaves.{IsReading, IsWriting, LeavesReport};
ghost use Rattle.cred_commands.specs.Sequences.{AppendsSequence, WritesSequenceStart, HandsOver};

use crate::straight::write_line;
use cred_buffer::ReportBuffer;
use cred_hold::Cells;
use cred_io::{Sink, SinkRefusal, Source, write_all};
use cred_output::{Status, finish, read_script};
use cred_script::Script;
use cred_state::State;
use std::alloc::Global;
use std::mem::forget;

/// How many bytes go into one write, at least.
const BYTES_A_WRITE: usize = 64 * 1024;

/// How long a text is that is written at once: for a sink whose writes are counted, that of each
/// line is.
fn bytes_a_write<K: Sink>(sink: &K) -> usize
    ensures { 0 < result }
{
    if sink.pieces_a_write() > 1 {
        BYTES_A_WRITE
    } else {
        1
    }
}

/// Writes the text and drops it, where it is long enough for a write. Else it stays.
fn write_some<K: Sink>(sink: &mut K, out: &mut ReportBuffer) -> Result<(), SinkRefusal>
    ensures ok { OnOk result
        (HandsOver out.old out.new (K.written sink.old) (K.written sink.new)) }
    ensures err { OnErr result (AppendsPrefix (K.written sink.old) (K.written sink.new) out.old) }
    ensures cause { CountsFaults (result ≡ Err SinkRefusal.Failed)
        (K.faults sink.old) (K.faults sink.new) }
{
    if out.len() < bytes_a_write(sink) {
        return Ok(());
    }
    write_all(sink, out.items())?;
    out.clear();
    Ok(())
}

/// Writes the last of a text, and hands it on: what a buffer keeps back can still be lost.
fn write_last<K: Sink>(sink: &mut K, out: &ReportBuffer) -> Result<(), SinkRefusal>
    ensures ok { OnOk result (Appends (K.written sink.old) (K.written sink.new) out.now) }
    ensures err { OnErr result (AppendsPrefix (K.written sink.old) (K.written sink.new) out.now) }
    ensures flushed { OnOk result (K.flushed sink.new ≡ true) }
    ensures cause { CountsFaults (result ≡ Err SinkRefusal.Failed)
        (K.faults sink.old) (K.faults sink.new) }
{
    write_all(sink, out.items())?;
    sink.flush()
}

/// Runs the script's lines in order, on the state before its first event, and writes the text of
/// their entries.
///
/// # Errors
///
/// The sink's refusal, and `Memory` if an allocation fails: a prefix of the text was written.
fn write_lines<K: Sink>(
    alloc: Global,
    sink: &mut K,
    script: &Script,
    state: &mut State,
    cells: &Cells,
) -> Result<(), SinkRefusal>
    requires own { state.old.words.id ≡ cells.now }
    requires out { state.old.words.out ≡ [] }
    requires opening { state.old.state ≡ opening script.now }
    ensures ok { OnOk result
        (AppendsSequence script.now (K.written sink.old) (K.written sink.new)) }
    ensures err { OnErr result
        (WritesSequenceStart script.now (K.written sink.old) (K.written sink.new)) }
    ensures flushed { OnOk result (K.flushed sink.new ≡ true) }
    ensures cause { CountsFaults (result ≡ Err SinkRefusal.Failed)
        (K.faults sink.old) (K.faults sink.new) }
{
    let Ok(mut out) = ReportBuffer::new(alloc) else {
        return Err(SinkRefusal::Memory);
    };
    let mut entries = Vec::new(alloc);
    let mut past = 0;
    'lines: while past < script.lines() {
        let Ok(()) = write_line(state, cells, script, past, &mut entries, &mut out) else {
            return Err(SinkRefusal::Memory);
        };
        past += 1;
        write_some(sink, &mut out)?;
    }
    write_last(sink, &out)
}

/// The same, on a state of its own: to own one is expensive to prove, so nothing else is done here.
///
/// # Errors
///
/// The sink's refusal, and `Memory` if an allocation fails: a prefix of the text was written.
fn write_in_order<K: Sink>(alloc: Global, sink: &mut K, script: &Script) -> Result<(), SinkRefusal>
    ensures ok { OnOk result
        (AppendsSequence script.now (K.written sink.old) (K.written sink.new)) }
    ensures err { OnErr result
        (WritesSequenceStart script.now (K.written sink.old) (K.written sink.new)) }
    ensures flushed { OnOk result (K.flushed sink.new ≡ true) }
    ensures cause { CountsFaults (result ≡ Err SinkRefusal.Failed)
        (K.faults sink.old) (K.faults sink.new) }
{
    let Ok((cells, mut state)) = State::new(alloc, script) else {
        return Err(SinkRefusal::Memory);
    };
    let written = write_lines(alloc, sink, script, &mut state, &cells);
    drop(state);
    written
}

/// The same, and returns how the command ends.
fn report_in_order<K: Sink>(alloc: Global, sink: &mut K, script: &Script) -> Status
    ensures done { result ≡ Status.Done
        → AppendsSequence script.now (K.written sink.old) (K.written sink.new) }
    ensures prefix { WritesSequenceStart script.now (K.written sink.old) (K.written sink.new) }
    ensures only { IsForText result }
    ensures writing { IsWriting result (K.flushed sink.new)
        (K.faults sink.old) (K.faults sink.new) }
{
    finish(write_in_order(alloc, sink, script), Status::Done)
}

/// Reads a script to its end, runs it, and writes its report, or its first bad line.
pub fn read_and_run<S: Source, K: Sink>(alloc: Global, source: &mut S, sink: &mut K) -> Status
    ensures report { LeavesReport IsSequence result (S.left source.old) (S.left source.new)
        (K.written sink.old) (K.written sink.new) }
    ensures reading { IsReading BYTE_LIMIT result (S.left source.old) (S.left source.new)
        (S.faults source.old) (S.faults source.new) }
    ensures writing { IsWriting result (K.flushed sink.new)
        (K.faults sink.old) (K.faults sink.new) }
    ensures silent { (result ≡ Status.ReadFault) ⊎ (result ≡ Status.TooLarge)
        → sink.new ≡ sink.old }
{
    match read_script(alloc, source, sink) {
        Ok(script) => {
            let status = report_in_order(alloc, sink, &script);
            // The program ends next, and its memory with it: so no line is freed.
            forget(script);
            status
        }
        Err(status) => status,
    }
}
