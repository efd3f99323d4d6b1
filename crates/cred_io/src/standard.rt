//! A source over a reader of std, and a sink over a writer. Each counts its calls that fail, so
//! that a caller can distinguish a fault of the outside from code that gives up.
ghost use Rattle.std.specs.Prelude.{◌≡◌, ◌<◌, ◌≤◌, true, false, length, IfOk, OnOk, OnErr, IfErr};
ghost use Rattle.std.specs.Prelude.{IsErr};
ghost use Rattle.std.specs.Io.{ReadsAtMost, WritesAtMost};
ghost use Rattle.std.specs.Io.KnownBytes.{ReadConsumes, WriteAppends, Keeps};
ghost use Rattle.cred_io.specs.Causes.{CountsFaults, next_count};
ghost use Rattle.cred_io.specs.Standard.{std_reader, std_source_faults, std_writer};
ghost use Rattle.cred_io.specs.Standard.{MOST_GATHERED, std_sink_flushed, std_sink_faults};

use crate::{Failed, Sink, SinkRefusal, Source};
use std::io::{Read, Write};

/// A reader of std, with a count of the reads that failed.
#[derive(Drop)]
pub struct StdSource<R: Read> {
    reader: R,
    faults: u64,
}

impl<R: Read> StdSource<R> {
    /// A source over this reader, which has not failed.
    pub fn new(reader: R) -> Self
        ensures reader { std_reader result ≡ reader }
        ensures fresh { std_source_faults result ≡ 0 }
    {
        StdSource { reader, faults: 0 }
    }
}

impl<R: Read> Source for StdSource<R> {
    ghost left = { λ s. R.remaining (std_reader s) };

    ghost faults = { std_source_faults };

    /// One read of the reader. Its error is counted and returned as `Failed`.
    fn read(&mut self, buf: &mut [u8]) -> Result<usize, Failed>
        ensures bound { ReadsAtMost result buf.new }
        ensures bytes { ReadConsumes (R.remaining (std_reader self.old))
            (R.remaining (std_reader self.new)) result buf.new }
        ensures cause { CountsFaults (IsErr result)
            (std_source_faults self.old) (std_source_faults self.new) }
        ensures err { OnErr result
            (std_source_faults self.new ≡ next_count (std_source_faults self.old)) }
    {
        match self.reader.read(buf) {
            Ok(count) => Ok(count),
            Err(_) => {
                self.faults = self.faults.saturating_add(1);
                Err(Failed)
            }
        }
    }
}

/// How many pieces of a text are gathered for one write to a writer of std.
const GATHERED: usize = 1_024;

/// A writer of std, with a count of the calls that failed. It never returns `Memory`.
#[derive(Drop)]
pub struct StdSink<W: Write> {
    writer: W,
    flushed: bool,
    faults: u64,
}

impl<W: Write> StdSink<W> {
    /// A sink over this writer, which has not failed. What was written to the writer before may be
    /// kept back.
    pub fn new(writer: W) -> Self
        ensures writer { std_writer result ≡ writer }
        ensures kept_back { std_sink_flushed result ≡ false }
        ensures fresh { std_sink_faults result ≡ 0 }
    {
        StdSink {
            writer,
            flushed: false,
            faults: 0,
        }
    }

    /// Counts a call that failed.
    fn count_fault(&mut self)
        ensures writer { std_writer self.new ≡ std_writer self.old }
        ensures flushed { std_sink_flushed self.new ≡ std_sink_flushed self.old }
        ensures count { std_sink_faults self.new ≡ next_count (std_sink_faults self.old) }
        ensures later { std_sink_faults self.old ≤ std_sink_faults self.new }
    {
        self.faults = self.faults.saturating_add(1);
    }
}

impl<W: Write> Sink for StdSink<W> {
    ghost written = { λ s. W.contents (std_writer s) };

    ghost flushed = { std_sink_flushed };

    ghost faults = { std_sink_faults };

    /// One write of the writer. An error, or a writer that takes nothing of a piece, is counted and
    /// returned as `Failed`.
    fn write(&mut self, piece: &[u8]) -> Result<usize, SinkRefusal>
        ensures bound { WritesAtMost result piece.now }
        ensures some { IfOk result (λ n. 0 < length piece.now → 0 < n) }
        ensures bytes { WriteAppends (W.contents (std_writer self.old))
            (W.contents (std_writer self.new)) result piece.now }
        ensures kept_back { std_sink_flushed self.new ≡ false }
        ensures cause { CountsFaults (result ≡ Err SinkRefusal.Failed)
            (std_sink_faults self.old) (std_sink_faults self.new) }
        ensures err { OnErr result
            (std_sink_faults self.new ≡ next_count (std_sink_faults self.old)) }
        ensures never_memory { IfErr result (λ e. e ≡ SinkRefusal.Failed) }
    {
        self.flushed = false;
        match self.writer.write(piece) {
            Ok(0) if !piece.is_empty() => {
                self.count_fault();
                Err(SinkRefusal::Failed)
            }
            Ok(count) => Ok(count),
            Err(_) => {
                self.count_fault();
                Err(SinkRefusal::Failed)
            }
        }
    }

    /// As many as fill some 40 KiB: they are gathered before they are written. So a text of any
    /// length goes through a buffer of some size.
    fn pieces_a_write(&self) -> usize
        ensures { (0 < result) × (result ≤ MOST_GATHERED) }
    {
        GATHERED
    }

    /// The writer's flush. Its error is counted and returned as `Failed`.
    fn flush(&mut self) -> Result<(), SinkRefusal>
        ensures bytes { Keeps (W.contents (std_writer self.old))
            (W.contents (std_writer self.new)) }
        ensures flushed { OnOk result (std_sink_flushed self.new ≡ true) }
        ensures cause { CountsFaults (result ≡ Err SinkRefusal.Failed)
            (std_sink_faults self.old) (std_sink_faults self.new) }
        ensures err { OnErr result
            (std_sink_faults self.new ≡ next_count (std_sink_faults self.old)) }
        ensures never_memory { IfErr result (λ e. e ≡ SinkRefusal.Failed) }
    {
        match self.writer.flush() {
            Ok(()) => {
                self.flushed = true;
                Ok(())
            }
            Err(_) => {
                self.count_fault();
                Err(SinkRefusal::Failed)
            }
        }
    }
}
