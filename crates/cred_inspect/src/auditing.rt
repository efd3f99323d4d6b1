//! Whether a report is the report of a script.
ghost use Rattle.std.specs.Prelude.{◌≡◌, ◌≢◌, ◌≤◌, ◌⊎◌, IfOk, MatchBool};
ghost use Rattle.std.specs.Prelude.{length, string_bytes};
ghost use Rattle.std.specs.Option.{option_map};
ghost use Rattle.cred_ids.specs.Limits.{LINE_LIMIT, AUDIT_LIMIT};
ghost use Rattle.cred_spelling.specs.Lines.{lines_of};
ghost use Rattle.cred_inspect.specs.Auditing.{AuditSuits, IsAuditWithin, Judges, LeavesVerdict};
ghost use Rattle.cred_inspect.specs.Auditing.{SaysVerdict, Writes, WritesPrefix, no_report_text};
ghost use Rattle.cred_output.specs.Ends.{IsTooLarge, IsWhole, IsWithinLimits};
ghost use Rattle.cred_output.specs.Leaves.{IsReading, IsWriting};
ghost use Rattle.cred_inspect.specs.Parts as spec;
ghost use Rattle.cred_inspect.specs.Parts.{script_part};

use crate::parts::input_parts;
use cred_audit::{Verdict, audit};
use cred_grammar::{line_count, read};
use cred_ids::{NoMemory, limits};
use cred_io::{Sink, Source, read_all};
use cred_output::{Message, Status, bad_line, write_message};
use std::alloc::Global;
use std::mem::forget;

/// Reads an input to its end, and writes whether its report is its script's.
pub fn read_and_audit<S: Source, K: Sink>(alloc: Global, source: &mut S, sink: &mut K) -> Status
    ensures verdict { LeavesVerdict result (S.left source.old) (S.left source.new)
        (K.written sink.old) (K.written sink.new) }
    ensures reading { IsReading AUDIT_LIMIT result (S.left source.old) (S.left source.new)
        (S.faults source.old) (S.faults source.new) }
    ensures writing { IsWriting result (K.flushed sink.new)
        (K.faults sink.old) (K.faults sink.new) }
    ensures silent { (result ≡ Status.ReadFault) ⊎ (result ≡ Status.TooLarge)
        → sink.new ≡ sink.old }
{
    match read_all(alloc, source, limits::AUDIT_LIMIT) {
        Ok(bytes) => run_audit(alloc, bytes.items(), sink),
        Err(refusal) => Status::from(refusal),
    }
}

/// Writes whether the report in an input is its script's, or where it goes wrong, or why the input
/// is none; nothing where the script is too large.
fn run_audit<K: Sink>(alloc: Global, input: &[u8], sink: &mut K) -> Status
    requires { length input.now ≤ AUDIT_LIMIT }
    ensures whole { IsWhole result
        → Writes result (K.written sink.old) (K.written sink.new) input.now }
    ensures too_large { result ≡ Status.TooLarge
        → IsTooLarge (script_part input.now) × (sink.new ≡ sink.old) }
    ensures no_read_fault { result ≢ Status.ReadFault }
    ensures suits { AuditSuits input.now result }
    ensures writing { IsWriting result (K.flushed sink.new)
        (K.faults sink.old) (K.faults sink.new) }
    ensures prefix { (sink.new ≡ sink.old) ⊎ (IsAuditWithin input.now
        × WritesPrefix (K.written sink.old) (K.written sink.new) input.now) }
{
    let parts = input_parts(input);
    if is_too_large(script_part(input, parts)) {
        return Status::TooLarge;
    }
    write_message(sink, message_of(alloc, input, parts))
}

/// The part that is read as a script: where no line is `report`, the whole input.
fn script_part<'b>(input: &'b [u8], parts: Option<(&'b [u8], &'b [u8])>) -> &'b [u8]
    requires { option_map (λ parts. (parts.0.now, parts.1.now)) parts ≡ spec.input_parts input.now }
    ensures { result.now ≡ spec.script_part input.now }
{
    match parts {
        Some((script, _)) => script,
        None => input,
    }
}

/// Whether this has more bytes, or more lines, than a script may have.
fn is_too_large(script: &[u8]) -> bool
    ensures { MatchBool result (IsTooLarge script.now) (IsWithinLimits script.now) }
{
    script.len() > limits::BYTE_LIMIT as usize || line_count(script) > limits::LINE_LIMIT
}

/// The text for an input within the limits, with its status.
fn message_of(
    alloc: Global,
    input: &[u8],
    parts: Option<(&[u8], &[u8])>,
) -> Result<Message, NoMemory>
    requires parts { option_map (λ parts. (parts.0.now, parts.1.now)) parts
        ≡ spec.input_parts input.now }
    requires within { IsWithinLimits (spec.script_part input.now) }
    ensures { IfOk result (λ message. SaysVerdict input.now message.status message.text.items) }
{
    match parts {
        Some((script, report)) => judge(alloc, script, report),
        None => Ok(Message::of(Status::Bad, no_report(alloc, input)?)),
    }
}

/// The text for an input without a line `report`.
fn no_report(alloc: Global, input: &[u8]) -> Result<String, NoMemory>
    requires { length (lines_of input.now) ≤ LINE_LIMIT }
    ensures { IfOk result (λ text. string_bytes text ≡ no_report_text input.now) }
{
    let line = line_count(input) + 1;
    Ok(format!(in alloc; "bad {line} report\n")?)
}

/// The text for a script and what follows the line `report`, with its status.
fn judge(alloc: Global, script: &[u8], report: &[u8]) -> Result<Message, NoMemory>
    requires { length (lines_of script.now) ≤ LINE_LIMIT }
    ensures { IfOk result (λ message. Judges script.now report.now message.status
        message.text.items) }
{
    match read(alloc, script) {
        Ok(script) => {
            let verdict = audit(alloc, &script, report);
            // The program ends next, and its memory with it: so no line is freed.
            forget(script);
            match verdict? {
                Verdict::Legal => Ok(Message::of(
                    Status::Done,
                    String::from_str(alloc, "legal\n")?,
                )),
                Verdict::NotLegal { entry } => Ok(Message::of(
                    Status::NotLegal,
                    format!(in alloc; "not legal {entry}\n")?,
                )),
            }
        }
        Err(refusal) => bad_line(alloc, refusal),
    }
}
