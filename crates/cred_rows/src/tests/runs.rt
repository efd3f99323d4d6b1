//! Runs of the program over a source and a sink in memory.
use cred_ids::NoMemory;
use cred_io::{MemorySource, Sink};
use cred_lanes::{Gate, NoGate};
use cred_program::{Status, credtrace};
use std::alloc::Global;
use std::sync::Wait;
use std::thread::Threads;

/// The words of a command line.
fn words_of(alloc: Global, texts: &[&str]) -> Result<Vec<String>, NoMemory> {
    let mut words = Vec::new(alloc);
    for text in texts {
        words.push(String::from_str(alloc, text)?)?;
    }
    Ok(words)
}

/// What stands on the input, how many bytes of it one read moves at most, and which read fails.
/// There is no read 0.
#[derive(Clone, Copy)]
pub(crate) struct Given<'g> {
    pub(crate) bytes: &'g [u8],
    pub(crate) piece: usize,
    pub(crate) failing: u64,
}

impl Given<'_> {
    /// An input of which no read fails, and each moves all that it is asked to.
    pub(crate) fn whole(bytes: &[u8]) -> Given<'_> {
        Given {
            bytes,
            piece: usize::MAX,
            failing: 0,
        }
    }
}

/// How the program ends on these words and this input.
pub(crate) fn end_of<R: AllocGlobal + Threads + Wait + Sync, K: Sink>(
    rt: &R,
    texts: &[&str],
    given: &Given<'_>,
    sink: &mut K,
) -> Result<Status, NoMemory> {
    end_of_gated(rt, texts, given, sink, &NoGate)
}

/// The same, where the lanes come to this gate.
pub(crate) fn end_of_gated<R: AllocGlobal + Threads + Wait + Sync, K: Sink, G: Gate + Sync>(
    rt: &R,
    texts: &[&str],
    given: &Given<'_>,
    sink: &mut K,
    gate: &G,
) -> Result<Status, NoMemory> {
    let words = words_of(rt.alloc(), texts)?;
    let end = end_of_words(rt, &words, given, sink, gate);
    // At one place, here and below: what is owned is expensive to drop, for the prover.
    drop(words);
    end
}

/// The same on words that stand there.
fn end_of_words<R: AllocGlobal + Threads + Wait + Sync, K: Sink, G: Gate + Sync>(
    rt: &R,
    words: &[String],
    given: &Given<'_>,
    sink: &mut K,
    gate: &G,
) -> Result<Status, NoMemory> {
    let source = MemorySource::of(rt.alloc(), given.bytes, &[given.failing])?;
    let mut source = source.with_piece(given.piece.max(1));
    let status = credtrace(rt, rt.alloc(), words, &mut source, sink, gate);
    drop(source);
    Ok(status)
}
