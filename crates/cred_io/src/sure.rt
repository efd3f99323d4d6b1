//! A source and a sink in memory that never fail.
ghost use Rattle.std.specs.Prelude.{◌≡◌, ◌<◌, ◌++◌, [], true, false, length, take, drop, min, Some};
ghost use Rattle.std.specs.Prelude.{IfOk, OnOk, IfErr, IsOk, IsErr};
ghost use Rattle.std.specs.Io.{ReadsAtMost, WritesAtMost};
ghost use Rattle.std.specs.Io.KnownBytes.{ReadConsumes, WriteAppends, Keeps};
ghost use Rattle.cred_io.specs.Causes.{CountsFaults};

use crate::memory_source::copy_prefix;
use crate::{Failed, Sink, SinkRefusal, Source};
use cred_ids::NoMemory;
use std::alloc::Global;
use std::marker::Model;

/// Bytes in memory, of which no read fails. Clauses see the bytes that are left.
#[derive(Drop, Debug)]
pub struct SureSource {
    bytes: Vec<u8>,
    at: usize,
}

impl Model for SureSource {
    ghost use Rattle.std.specs.Prelude.{ℕ, ◌≤◌, List, drop, vec_len};

    ghost Value = { List ℕ };

    ghost view = { λ s. drop s.at s.bytes.items };

    ghost invariant = { λ s. s.at ≤ vec_len s.bytes };
}

impl SureSource {
    /// A source of these bytes.
    ///
    /// # Errors
    ///
    /// `NoMemory` if the allocation of the bytes fails.
    pub fn of(alloc: Global, bytes: &[u8]) -> Result<Self, NoMemory>
        ensures { IfOk result (λ s. s ≡ bytes.now) }
    {
        Ok(SureSource {
            bytes: bytes.to_vec(alloc)?,
            at: 0,
        })
    }
}

impl Source for SureSource {
    ghost left = { λ s. Some s };

    ghost faults = { λ _. 0 };

    /// Moves as many bytes as are left and fit.
    fn read(&mut self, buf: &mut [u8]) -> Result<usize, Failed>
        ensures bound { ReadsAtMost result buf.new }
        ensures bytes { ReadConsumes (Some self.old) (Some self.new) result buf.new }
        ensures cause { CountsFaults (IsErr result) 0 0 }
        ensures count { result ≡ Ok (min (length buf.old) (length self.old)) }
        ensures copied { IfOk result (λ n. buf.new ≡ take n self.old ++ drop n buf.old) }
        ensures rest { IfOk result (λ n. self.new ≡ drop n self.old) }
    {
        let count = copy_prefix(&self.bytes[self.at..], buf);
        self.at += count;
        Ok(count)
    }
}

/// Bytes in memory, to which no write fails but where an allocation does. Clauses see a
/// `SureState`.
#[derive(Drop, Debug)]
pub struct SureSink {
    bytes: Vec<u8>,
    flushed: bool,
}

impl Model for SureSink {
    ghost use Rattle.cred_io.specs.Memory.{SureState};

    ghost Value = { SureState };

    ghost view = { λ s. record { bytes = s.bytes.items; flushed = s.flushed } };
}

impl SureSink {
    /// A sink to which nothing was written.
    pub fn new(alloc: Global) -> Self
        ensures { result ≡ record { bytes = []; flushed = true } }
    {
        SureSink {
            bytes: Vec::new(alloc),
            flushed: true,
        }
    }

    /// What was written.
    pub fn bytes(&self) -> &[u8]
        ensures { result.now ≡ self.now.bytes }
    {
        &self.bytes
    }
}

impl Sink for SureSink {
    ghost written = { λ s. Some s.bytes };

    ghost flushed = { λ s. s.flushed };

    ghost faults = { λ _. 0 };

    /// Appends the whole piece, unless an allocation fails.
    fn write(&mut self, piece: &[u8]) -> Result<usize, SinkRefusal>
        ensures bound { WritesAtMost result piece.now }
        ensures some { IfOk result (λ n. 0 < length piece.now → 0 < n) }
        ensures bytes { WriteAppends (Some self.old.bytes) (Some self.new.bytes) result piece.now }
        ensures kept_back { OnOk result (self.new.flushed ≡ false) }
        ensures cause { CountsFaults (result ≡ Err SinkRefusal.Failed) 0 0 }
        ensures count { IfOk result (λ n. n ≡ length piece.now) }
        ensures never_failed { IfErr result (λ e. e ≡ SinkRefusal.Memory) }
    {
        self.bytes.extend_from_slice(piece)?;
        self.flushed = false;
        Ok(piece.len())
    }

    fn pieces_a_write(&self) -> usize {
        1
    }

    /// Nothing is kept back, so this only notes that it is done.
    fn flush(&mut self) -> Result<(), SinkRefusal>
        ensures bytes { Keeps (Some self.old.bytes) (Some self.new.bytes) }
        ensures flushed { OnOk result (self.new.flushed ≡ true) }
        ensures cause { CountsFaults (result ≡ Err SinkRefusal.Failed) 0 0 }
        ensures sure { IsOk result }
    {
        self.flushed = true;
        Ok(())
    }
}
