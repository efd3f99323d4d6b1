//! What the process does with its words and its two streams: one run of the program.
ghost use Rattle.std.specs.Prelude.{◌≡◌, IfOk, OnErr};
ghost use Rattle.cred_output.specs.Statuses.{code_of};
ghost use Rattle.cred_program.specs.Runs.{EndsWith};
ghost use Rattle.cred_program.specs.Words.{texts};

use crate::program::credtrace;
use cred_ids::NoMemory;
use cred_io::{Sink, Source};
use cred_output::Status;
use cred_runs::Gate;
use std::alloc::Global;
use std::sync::Wait;
use std::thread::Threads;

/// Runs the program once, on the words as they came, and returns the exit status of the process:
/// the number of the status that the run had. Where memory ran out for the words it is that of
/// `Memory`, and neither stream is touched.
pub fn exit_code<R: Threads + Wait + Sync, S: Source, K: Sink, G: Gate + Sync>(
    rt: &R,
    alloc: Global,
    words: &Result<Vec<String>, NoMemory>,
    source: &mut S,
    sink: &mut K,
    gate: &G,
) -> u8
    ensures once { IfOk words.now (λ words. EndsWith (texts words.items) result
        record {
          before = S.left source.old;
          after = S.left source.new;
          faults = S.faults source.old;
          now = S.faults source.new;
        }
        record {
          before = K.written sink.old;
          after = K.written sink.new;
          faults = K.faults sink.old;
          now = K.faults sink.new;
        }
        (K.flushed sink.new) (source.new ≡ source.old) (sink.new ≡ sink.old)) }
    ensures no_words { OnErr words.now ((result ≡ code_of Status.Memory)
        × (source.new ≡ source.old) × (sink.new ≡ sink.old)) }
{
    match words {
        Ok(words) => credtrace(rt, alloc, words, source, sink, gate).code(),
        Err(NoMemory) => Status::Memory.code(),
    }
}
