//! A source in memory whose chosen calls fail, to try code at each fault of a source.
ghost use Rattle.std.specs.Prelude.{◌≡◌, ◌<◌, ◌↔◌, ◌++◌, length, take, drop, min, Some, IfOk};
ghost use Rattle.std.specs.Prelude.{OnErr, IsErr};
ghost use Rattle.std.specs.Io.{ReadsAtMost};
ghost use Rattle.std.specs.Io.KnownBytes.{ReadConsumes};
ghost use Rattle.cred_io.specs.Causes.{CountsFaults, next_count};
ghost use Rattle.cred_io.specs.Memory.{FailsNext, WHOLE};

use crate::{Failed, Source};
use cred_ids::NoMemory;
use std::alloc::Global;
use std::marker::Model;

/// Copies the first bytes to the beginning of the buffer, as many as fit, and returns how many.
pub(crate) fn copy_prefix(bytes: &[u8], buf: &mut [u8]) -> usize
    ensures count { result ≡ min (length buf.old) (length bytes.now) }
    ensures copied { buf.new ≡ take result bytes.now ++ drop result buf.old }
{
    let count = buf.len().min(bytes.len());
    buf[..count].copy_from_slice(&bytes[..count]);
    count
}

/// Bytes in memory, of which the listed calls of `read` fail. Clauses see a `SourceState`.
#[derive(Drop, Debug)]
pub struct MemorySource {
    bytes: Vec<u8>,
    at: usize,
    piece: usize,
    calls: u64,
    failing: Vec<u64>,
    faults: u64,
}

impl Model for MemorySource {
    ghost use Rattle.std.specs.Prelude.{◌≤◌, ◌<◌, drop, vec_len};
    ghost use Rattle.cred_io.specs.Memory.{SourceState};

    ghost Value = { SourceState };

    ghost view = { λ s. record {
      left = drop s.at s.bytes.items;
      piece = s.piece;
      calls = s.calls;
      failing = s.failing.items;
      faults = s.faults;
    } };

    ghost invariant = { λ s. (s.at ≤ vec_len s.bytes) × (0 < s.piece) };
}

impl MemorySource {
    /// A source of these bytes whose calls with these numbers fail. The first call is 1, and the
    /// number stays at the greatest `u64`.
    ///
    /// # Errors
    ///
    /// `NoMemory` if the allocation of the bytes or of the numbers fails.
    pub fn of(alloc: Global, bytes: &[u8], failing: &[u64]) -> Result<Self, NoMemory>
        ensures { IfOk result (λ s. s ≡ record {
          left = bytes.now;
          piece = WHOLE;
          calls = 0;
          failing = failing.now;
          faults = 0;
        }) }
    {
        Ok(MemorySource {
            bytes: bytes.to_vec(alloc)?,
            at: 0,
            piece: usize::MAX,
            calls: 0,
            failing: failing.to_vec(alloc)?,
            faults: 0,
        })
    }

    /// The same source, but one call moves at most `size` bytes, one at least.
    pub fn with_piece(self, size: usize) -> Self
        requires { 0 < size }
        ensures { result ≡ record self { piece = size } }
    {
        MemorySource {
            piece: size,
            ..self
        }
    }
}

impl Source for MemorySource {
    ghost left = { λ s. Some s.left };

    ghost faults = { λ s. s.faults };

    /// Moves as many bytes as are left and fit, and no more than one call moves at most, unless
    /// this call is one of those that fail: such a call is counted as a fault, and moves nothing.
    fn read(&mut self, buf: &mut [u8]) -> Result<usize, Failed>
        ensures bound { ReadsAtMost result buf.new }
        ensures bytes { ReadConsumes (Some self.old.left) (Some self.new.left) result buf.new }
        ensures cause { CountsFaults (IsErr result) self.old.faults self.new.faults }
        ensures fails { IsErr result ↔ FailsNext self.old.failing self.old.calls }
        ensures count { IfOk result (λ n.
            n ≡ min (length buf.old) (min self.old.piece (length self.old.left))) }
        ensures copied { IfOk result (λ n. buf.new ≡ take n self.old.left ++ drop n buf.old) }
        ensures ok { IfOk result (λ n. self.new ≡ record self.old {
          left = drop n self.old.left;
          calls = next_count self.old.calls;
        }) }
        ensures err { OnErr result (self.new ≡ record self.old {
          calls = next_count self.old.calls;
          faults = next_count self.old.faults;
        }) }
        ensures err_buf { OnErr result (buf.new ≡ buf.old) }
    {
        self.calls = self.calls.saturating_add(1);
        if self.failing.contains(&self.calls) {
            self.faults = self.faults.saturating_add(1);
            return Err(Failed);
        }
        let left = &self.bytes[self.at..];
        let count = copy_prefix(&left[..left.len().min(self.piece)], buf);
        self.at += count;
        Ok(count)
    }
}
