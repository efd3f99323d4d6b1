//! Running a script's lanes as threads, and writing the report of their journal in parts.
ghost use Rattle.std.specs.Prelude.{◌≡◌, [], true, OnOk, OnErr};
ghost use Rattle.cred_io.specs.Causes.{CountsFaults};
ghost use Rattle.cred_output.specs.Ends.{IsForText};
ghost use Rattle.cred_output.specs.Leaves.{IsWriting};
ghost use Rattle.cred_kernel.specs.Turns.{AreAllTurns, NoWorkIsOut};
ghost use Rattle.cred_runs.specs.Legal.{AppendsLegal, BeginsLegalText};

use cred_io::{Sink, SinkRefusal};
use cred_kernel::{Gate, KernelParts, Name, Rest, TurnList};
use cred_lanes::run_part;
use cred_output::{Status, finish, write_entries, write_last};
use cred_report::Pen;
use cred_script::Script;
use std::alloc::Global;
use std::marker::Brand;
use std::sync::Wait;
use std::thread::Threads;

/// Runs the setup of a script and then its lanes, each as a thread of its own where one can be
/// made, writes the report of the journal that they make, and returns how the command ends. The
/// journal is legal for the script: each lane's lines are in order, each once, with the answers
/// that they get where they stand. It may wait.
///
/// A script without lanes has the journal of its setup.
pub(crate) fn report<R: Threads + Wait + Sync, K: Sink, G: Gate + Sync>(
    rt: &R,
    alloc: Global,
    sink: &mut K,
    script: Script,
    gate: &G,
) -> Status
    ensures done { result ≡ Status.Done
        → AppendsLegal script (K.written sink.old) (K.written sink.new) }
    ensures prefix { BeginsLegalText script (K.written sink.old) (K.written sink.new) }
    ensures only { IsForText result }
    ensures writing { IsWriting result (K.flushed sink.new)
        (K.faults sink.old) (K.faults sink.new) }
{
    finish(write_lanes(rt, alloc, sink, script, gate), Status::Done)
}

/// The same.
///
/// # Errors
///
/// The sink's refusal, and `Memory` if an allocation fails, in the threads too: a prefix of the
/// text of one legal journal was written.
fn write_lanes<R: Threads + Wait + Sync, K: Sink, G: Gate + Sync>(
    rt: &R,
    alloc: Global,
    sink: &mut K,
    script: Script,
    gate: &G,
) -> Result<(), SinkRefusal>
    ensures ok { OnOk result (AppendsLegal script (K.written sink.old) (K.written sink.new)) }
    ensures err { OnErr result
        (BeginsLegalText script (K.written sink.old) (K.written sink.new)) }
    ensures flushed { OnOk result (K.flushed sink.new ≡ true) }
    ensures cause { CountsFaults (result ≡ Err SinkRefusal.Failed)
        (K.faults sink.old) (K.faults sink.new) }
{
    let Ok(parts) = KernelParts::new(alloc, script) else {
        return Err(SinkRefusal::Memory);
    };
    write_named::<Brand, R, K, G>(rt, alloc, sink, parts, gate)
}

/// The same under a name that stands for this script, this roll, these cells and these files.
fn write_named<N: Name + Send + Sync, R: Threads + Wait + Sync, K: Sink, G: Gate + Sync>(
    rt: &R,
    alloc: Global,
    sink: &mut K,
    parts: KernelParts,
    gate: &G,
) -> Result<(), SinkRefusal>
    requires script { parts.script ≡ N.script }
    requires roll { parts.roll ≡ N.roll }
    requires cells { parts.cells ≡ N.cells }
    requires inodes { parts.inodes ≡ N.inodes }
    ensures ok { OnOk result (AppendsLegal N.script (K.written sink.old) (K.written sink.new)) }
    ensures err { OnErr result
        (BeginsLegalText N.script (K.written sink.old) (K.written sink.new)) }
    ensures flushed { OnOk result (K.flushed sink.new ≡ true) }
    ensures cause { CountsFaults (result ≡ Err SinkRefusal.Failed)
        (K.faults sink.old) (K.faults sink.new) }
{
    let Ok((rest, turns)) = Rest::<N>::new(alloc, parts) else {
        return Err(SinkRefusal::Memory);
    };
    write_parts(rt, alloc, sink, rest, turns, gate)
}

/// Runs the lanes of a kernel of which nothing has been written, part by part, and writes the
/// entries of each part before the next one begins.
///
/// # Errors
///
/// The sink's refusal, and `Memory` if an allocation fails, in the threads too: a prefix of the
/// text of one legal journal was written.
fn write_parts<N: Name + Send + Sync, R: Threads + Wait + Sync, K: Sink, G: Gate + Sync>(
    rt: &R,
    alloc: Global,
    sink: &mut K,
    rest: Rest<N>,
    turns: TurnList<N>,
    gate: &G,
) -> Result<(), SinkRefusal>
    requires first { rest.earlier ≡ [] }
    requires all { AreAllTurns N.script turns }
    requires home { NoWorkIsOut turns }
    ensures ok { OnOk result (AppendsLegal N.script (K.written sink.old) (K.written sink.new)) }
    ensures err { OnErr result
        (BeginsLegalText N.script (K.written sink.old) (K.written sink.new)) }
    ensures flushed { OnOk result (K.flushed sink.new ≡ true) }
    ensures cause { CountsFaults (result ≡ Err SinkRefusal.Failed)
        (K.faults sink.old) (K.faults sink.new) }
{
    let mut pen = Pen::new(alloc);
    let mut rest = rest;
    let mut turns = turns;
    'parts: for _ in rt.forever() {
        rest.goes_on();
        let Ok(ran) = run_part(rt, alloc, rest, turns, gate) else {
            return Err(SinkRefusal::Memory);
        };
        (rest, turns) = ran;
        rest.goes_on();
        if rest.has_ended() {
            let last = rest.close(turns);
            return write_last(sink, &mut pen, &last.script, &last.entries);
        }
        write_entries(sink, &mut pen, rest.script(), rest.entries())?;
        rest.begin_part();
    }
    unreachable!()
}
