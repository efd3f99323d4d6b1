//! Running a script's lanes as threads, from its input to its report.
ghost use Rattle.std.specs.Prelude.{◌≡◌, ◌⊎◌};
ghost use Rattle.cred_ids.specs.Limits.{BYTE_LIMIT};
ghost use Rattle.cred_model.specs.Journal.{IsLegal};
ghost use Rattle.cred_output.specs.Leaves.{IsReading, IsWriting, LeavesReport};

use crate::report::report;
use cred_io::{Sink, Source};
use cred_lanes::Gate;
use cred_output::{Status, read_script};
use std::alloc::Global;
use std::sync::Wait;
use std::thread::Threads;

/// Reads a script to its end, runs its lanes as threads, and writes the report of their journal, or
/// the script's first bad line. Each lane comes to the gate before, in and after each of its
/// decisions. It waits for threads alone, and for none where the input is no script.
pub fn read_and_lanes<R: Threads + Wait + Sync, S: Source, K: Sink, G: Gate + Sync>(
    rt: &R,
    alloc: Global,
    source: &mut S,
    sink: &mut K,
    gate: &G,
) -> Status
    ensures report { LeavesReport IsLegal result (S.left source.old) (S.left source.new)
        (K.written sink.old) (K.written sink.new) }
    ensures reading { IsReading BYTE_LIMIT result (S.left source.old) (S.left source.new)
        (S.faults source.old) (S.faults source.new) }
    ensures writing { IsWriting result (K.flushed sink.new)
        (K.faults sink.old) (K.faults sink.new) }
    ensures silent { (result ≡ Status.ReadFault) ⊎ (result ≡ Status.TooLarge)
        → sink.new ≡ sink.old }
{
    match read_script(alloc, source, sink) {
        Ok(script) => report(rt, alloc, sink, script, gate),
        Err(status) => status,
    }
}
