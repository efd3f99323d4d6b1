//! The top call.
ghost use Rattle.std.specs.Prelude.{◌≡◌, ◌⊎◌, ℕ, List, Some, None};
ghost use Rattle.cred_model.specs.Journal.{IsLegal, IsSequence};
ghost use Rattle.cred_inspect.specs.Auditing.{LeavesVerdict};
ghost use Rattle.cred_inspect.specs.Decoding.{LeavesAttribute};
ghost use Rattle.cred_inspect.specs.Encoding.{LeavesText};
ghost use Rattle.cred_inspect.specs.Records.{LeavesRecord};
ghost use Rattle.cred_output.specs.Leaves.{IsReading, IsWriting, LeavesReport};
ghost use Rattle.cred_commands.specs.Summing.{LeavesSummary};
ghost use Rattle.cred_program.specs.Commands.{LeavesUsage, limit_of};
ghost use Rattle.cred_program.specs.Words.{command_of, texts};

use crate::words::{Command, command_of};
use cred_commands::{read_and_run, run_gen};
use cred_ids::NoMemory;
use cred_inspect::{read_and_audit, run_capdata, run_decode, run_encode};
use cred_io::{Sink, Source};
use cred_output::{Status, write_short_text};
use cred_runs::{Gate, read_and_lanes};
use std::alloc::Global;
use std::sync::Wait;
use std::thread::Threads;

/// What is written for words that are no command.
const USAGE: &str = "usage: credtrace run|lanes|audit|gen N|decode HEX|encode TEXT|capdata HEX\n";

/// The program, over its words (those after its name), its input and its output: `run` reads a
/// script and writes its report, `lanes` does so too, but runs the script's lanes as threads,
/// `audit` reads a script, a line `report` and a report and writes whether that is the script's,
/// `gen N` runs a script of N calls and writes the summary of its journal, `decode HEX` writes what
/// an attribute says, `encode TEXT` the attribute that a text says, `capdata HEX` what a record of
/// capset(2) says, and all other words get the usage line. It returns how that ended. For `lanes`
/// alone it starts threads, and waits for them; each calls the gate before, in and after each
/// decision that it makes.
///
/// `Done`, `NotLegal`, `Bad` and `Usage` come with the whole text, flushed, and with no fault.
/// The source's count of faults rises for `ReadFault` alone, and the sink's for `WriteFault` alone.
/// `Memory` comes where an allocation failed, one of the sink's among them; the source may then
/// have been read in part.
/// After `WriteFault` and `Memory` what was written is a prefix of the text; after `ReadFault` and
/// `TooLarge` nothing was.
pub fn credtrace<R: Threads + Wait + Sync, S: Source, K: Sink, G: Gate + Sync>(
    rt: &R,
    alloc: Global,
    words: &[String],
    source: &mut S,
    sink: &mut K,
    gate: &G,
) -> Status
    // `run` and `lanes`: the report of a journal of the script, the one in which its lines run
    // whole and in order, or some legal one; or its first bad line.
    ensures run { command_of (texts words.now) ≡ Some Command.Run
        → LeavesReport IsSequence result (S.left source.old) (S.left source.new)
        (K.written sink.old) (K.written sink.new) }
    ensures lanes { command_of (texts words.now) ≡ Some Command.Lanes
        → LeavesReport IsLegal result (S.left source.old) (S.left source.new)
        (K.written sink.old) (K.written sink.new) }

    // `audit`: whether the report in the input is its script's, or what is bad of the input.
    ensures audit { command_of (texts words.now) ≡ Some Command.Audit
        → LeavesVerdict result (S.left source.old) (S.left source.new)
        (K.written sink.old) (K.written sink.new) }

    // The four others leave the source, and so do words that are no command.
    ensures generate { (n : ℕ) → command_of (texts words.now) ≡ Some (Command.Gen n)
        → (source.new ≡ source.old)
        × LeavesSummary n result (K.written sink.old) (K.written sink.new) }
    ensures decode { (bytes : List ℕ)
        → command_of (texts words.now) ≡ Some (Command.Decode bytes)
        → (source.new ≡ source.old)
        × LeavesAttribute bytes result (K.written sink.old) (K.written sink.new) }
    ensures encode { (text : List ℕ)
        → command_of (texts words.now) ≡ Some (Command.Encode text)
        → (source.new ≡ source.old)
        × LeavesText text result (K.written sink.old) (K.written sink.new) }
    ensures capdata { (bytes : List ℕ)
        → command_of (texts words.now) ≡ Some (Command.Capdata bytes)
        → (source.new ≡ source.old)
        × LeavesRecord bytes result (K.written sink.old) (K.written sink.new) }
    ensures usage { command_of (texts words.now) ≡ None
        → (source.new ≡ source.old)
        × LeavesUsage result (K.written sink.old) (K.written sink.new) }

    // Whatever the words are: each fault has its cause and its answer, one byte above the limit is
    // read at most, a whole text is flushed, and nothing is written where the reading failed or
    // there was too much to read.
    ensures reading { IsReading (limit_of (command_of (texts words.now))) result
        (S.left source.old) (S.left source.new) (S.faults source.old) (S.faults source.new) }
    ensures writing { IsWriting result (K.flushed sink.new)
        (K.faults sink.old) (K.faults sink.new) }
    ensures silent { (result ≡ Status.ReadFault) ⊎ (result ≡ Status.TooLarge)
        → sink.new ≡ sink.old }
{
    match command_of(alloc, words) {
        Ok(Some(Command::Run)) => read_and_run(alloc, source, sink),
        Ok(Some(Command::Lanes)) => read_and_lanes(rt, alloc, source, sink, gate),
        Ok(Some(Command::Audit)) => read_and_audit(alloc, source, sink),
        Ok(Some(Command::Gen(n))) => run_gen(alloc, n, sink),
        Ok(Some(Command::Decode(bytes))) => run_decode(alloc, bytes.items(), sink),
        Ok(Some(Command::Encode(text))) => run_encode(alloc, text.items(), sink),
        Ok(Some(Command::Capdata(bytes))) => run_capdata(alloc, bytes.items(), sink),
        Ok(None) => write_usage(sink),
        Err(NoMemory) => Status::Memory,
    }
}

/// Writes the usage line.
fn write_usage<K: Sink>(sink: &mut K) -> Status
    ensures usage { LeavesUsage result (K.written sink.old) (K.written sink.new) }
    ensures writing { IsWriting result (K.flushed sink.new)
        (K.faults sink.old) (K.faults sink.new) }
{
    write_short_text(sink, Status::Usage, USAGE.as_bytes())
}
