//! Reading a script to its end, or writing why the input is none.
ghost use Rattle.std.specs.Prelude.{◌≡◌, ◌≤◌, ◌⊎◌, IfOk, IfErr, MatchResult, length};
ghost use Rattle.cred_ids.specs.Limits.{BYTE_LIMIT};
ghost use Rattle.cred_output.specs.Ends.{status_so_far};
ghost use Rattle.cred_output.specs.Leaves.{IsReading, IsWriting, LeavesReport, RunsBytes};
ghost use Rattle.cred_output.specs.Scripts.{IsScript, NoJournal, ReadsScript};

use crate::message::write_message;
use crate::refusing::bad_line;
use crate::status::Status;
use cred_grammar::{line_count, read};
use cred_ids::limits;
use cred_io::{Sink, Source, read_all};
use cred_script::Script;
use std::alloc::Global;

/// Reads a script to its end.
///
/// # Errors
///
/// The status with which the command ends: `ReadFault` where the source failed, `TooLarge` where
/// there are more bytes or more lines than a script may have, and `Memory` if memory ran out.
/// Where the input is no script its first bad line is written, and the status is `Bad`, or
/// `WriteFault` if the sink failed.
pub fn read_script<S: Source, K: Sink>(
    alloc: Global,
    source: &mut S,
    sink: &mut K,
) -> Result<Script, Status>
    ensures script { IfOk result (ReadsScript (S.left source.old) (S.left source.new)) }
    ensures refused { IfErr result (λ status. LeavesReport NoJournal status
        (S.left source.old) (S.left source.new) (K.written sink.old) (K.written sink.new)) }
    ensures reading { IsReading BYTE_LIMIT (status_so_far result)
        (S.left source.old) (S.left source.new) (S.faults source.old) (S.faults source.new) }
    ensures writing { MatchResult result (λ script. sink.new ≡ sink.old)
        (λ status. IsWriting status (K.flushed sink.new)
        (K.faults sink.old) (K.faults sink.new)) }
    ensures silent { (result ≡ Err Status.ReadFault) ⊎ (result ≡ Err Status.TooLarge)
        → sink.new ≡ sink.old }
{
    let bytes = read_all(alloc, source, limits::BYTE_LIMIT)?;
    script_of(alloc, bytes.items(), sink)
}

/// The script that these bytes are.
///
/// # Errors
///
/// The status with which the command ends: `TooLarge`, and nothing is written, where there are too
/// many lines, and else that of the text that says which line is bad.
fn script_of<K: Sink>(alloc: Global, bytes: &[u8], sink: &mut K) -> Result<Script, Status>
    requires within { length bytes.now ≤ BYTE_LIMIT }
    ensures script { IfOk result (IsScript bytes.now) }
    ensures refused { IfErr result (λ status. RunsBytes NoJournal bytes.now status
        (K.written sink.old) (K.written sink.new) (sink.new ≡ sink.old)) }
    ensures writing { MatchResult result (λ script. sink.new ≡ sink.old)
        (λ status. IsWriting status (K.flushed sink.new)
        (K.faults sink.old) (K.faults sink.new)) }
{
    if line_count(bytes) > limits::LINE_LIMIT {
        return Err(Status::TooLarge);
    }
    match read(alloc, bytes) {
        Ok(script) => Ok(script),
        Err(refusal) => Err(write_message(sink, bad_line(alloc, refusal))),
    }
}
