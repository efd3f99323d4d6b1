//! A sink in memory whose chosen calls fail, to try code at each fault of a sink.
ghost use Rattle.std.specs.Prelude.{◌≡◌, ◌<◌, ◌↔◌, ◌++◌, [], true, false, length, take, min, Some};
ghost use Rattle.std.specs.Prelude.{IfOk, OnOk, IsOk};
ghost use Rattle.std.specs.Io.{WritesAtMost};
ghost use Rattle.std.specs.Io.KnownBytes.{WriteAppends, Keeps};
ghost use Rattle.cred_io.specs.Causes.{CountsFaults, next_count};
ghost use Rattle.cred_io.specs.Memory.{FailsNext, WHOLE};

use crate::{Sink, SinkRefusal};
use cred_ids::NoMemory;
use std::alloc::Global;
use std::marker::Model;

/// Bytes in memory, to which the listed calls of `write` fail. Clauses see a `SinkState`.
#[derive(Drop, Debug)]
pub struct MemorySink {
    bytes: Vec<u8>,
    flushed: bool,
    piece: usize,
    calls: u64,
    failing: Vec<u64>,
    faults: u64,
}

impl Model for MemorySink {
    ghost use Rattle.std.specs.Prelude.{◌<◌};
    ghost use Rattle.cred_io.specs.Memory.{SinkState};

    ghost Value = { SinkState };

    ghost view = { λ s. record {
      bytes = s.bytes.items;
      flushed = s.flushed;
      piece = s.piece;
      calls = s.calls;
      failing = s.failing.items;
      faults = s.faults;
    } };

    ghost invariant = { λ s. 0 < s.piece };
}

impl MemorySink {
    /// A sink to which nothing was written, and whose calls with these numbers fail. The first call
    /// is 1, and the number stays at the greatest `u64`.
    ///
    /// # Errors
    ///
    /// `NoMemory` if the allocation of the numbers fails.
    pub fn of(alloc: Global, failing: &[u64]) -> Result<Self, NoMemory>
        ensures { IfOk result (λ s. s ≡ record {
          bytes = [];
          flushed = true;
          piece = WHOLE;
          calls = 0;
          failing = failing.now;
          faults = 0;
        }) }
    {
        Ok(MemorySink {
            bytes: Vec::new(alloc),
            flushed: true,
            piece: usize::MAX,
            calls: 0,
            failing: failing.to_vec(alloc)?,
            faults: 0,
        })
    }

    /// The same sink, but one call appends at most `size` bytes, one at least.
    pub fn with_piece(self, size: usize) -> Self
        requires { 0 < size }
        ensures { result ≡ record self { piece = size } }
    {
        MemorySink {
            piece: size,
            ..self
        }
    }

    /// What was written.
    pub fn bytes(&self) -> &[u8]
        ensures { result.now ≡ self.now.bytes }
    {
        &self.bytes
    }
}

impl Sink for MemorySink {
    ghost written = { λ s. Some s.bytes };

    ghost flushed = { λ s. s.flushed };

    ghost faults = { λ s. s.faults };

    /// Appends the whole piece, or as much of it as one call appends at most, unless an allocation
    /// fails, or this call is one of those that fail: such a call is counted as a fault, and
    /// appends nothing.
    fn write(&mut self, piece: &[u8]) -> Result<usize, SinkRefusal>
        ensures bound { WritesAtMost result piece.now }
        ensures some { IfOk result (λ n. 0 < length piece.now → 0 < n) }
        ensures bytes { WriteAppends (Some self.old.bytes) (Some self.new.bytes) result piece.now }
        ensures kept_back { OnOk result (self.new.flushed ≡ false) }
        ensures cause { CountsFaults (result ≡ Err SinkRefusal.Failed)
            self.old.faults self.new.faults }
        ensures fails { (result ≡ Err SinkRefusal.Failed)
            ↔ FailsNext self.old.failing self.old.calls }
        ensures count { IfOk result (λ n. n ≡ min self.old.piece (length piece.now)) }
        ensures ok { IfOk result (λ n. self.new ≡ record self.old {
          bytes = self.old.bytes ++ take n piece.now;
          flushed = false;
          calls = next_count self.old.calls;
        }) }
        ensures failed { result ≡ Err SinkRefusal.Failed → self.new ≡ record self.old {
          calls = next_count self.old.calls;
          faults = next_count self.old.faults;
        } }
        ensures memory { result ≡ Err SinkRefusal.Memory → self.new ≡ record self.old {
          calls = next_count self.old.calls;
        } }
    {
        self.calls = self.calls.saturating_add(1);
        if self.failing.contains(&self.calls) {
            self.faults = self.faults.saturating_add(1);
            return Err(SinkRefusal::Failed);
        }
        let count = piece.len().min(self.piece);
        self.bytes.extend_from_slice(&piece[..count])?;
        self.flushed = false;
        Ok(count)
    }

    fn pieces_a_write(&self) -> usize {
        1
    }

    /// Nothing is kept back, so this only notes that it is done. It is not counted as a call.
    fn flush(&mut self) -> Result<(), SinkRefusal>
        ensures bytes { Keeps (Some self.old.bytes) (Some self.new.bytes) }
        ensures flushed { OnOk result (self.new.flushed ≡ true) }
        ensures cause { CountsFaults (result ≡ Err SinkRefusal.Failed)
            self.old.faults self.new.faults }
        ensures sure { IsOk result }
        ensures new { self.new ≡ record self.old { flushed = true } }
    {
        self.flushed = true;
        Ok(())
    }
}
