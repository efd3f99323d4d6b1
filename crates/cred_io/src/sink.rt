//! What bytes are written to, and writing a whole text.
ghost use Rattle.std.specs.Prelude.{◌≡◌, ◌<◌, List, ℕ, Bool, true, false, length, IfOk, OnOk};
ghost use Rattle.std.specs.Prelude.{OnErr};
ghost use Rattle.std.specs.declared.option.Option.{Option};
ghost use Rattle.std.specs.Io.{WritesAtMost};
ghost use Rattle.std.specs.Io.KnownBytes.{WriteAppends, Appends, Keeps};
ghost use Rattle.cred_io.specs.Causes.{CountsFaults};
ghost use Rattle.cred_io.specs.Ends.{AppendsPrefix};
ghost use Rattle.cred_io.specs.declared.sink.SinkRefusal.TheVariants.{Failed, Memory};

use std::alloc::AllocError;

/// Where bytes go.
///
/// A real stream does not report what was written to it. So that is optional, and the clauses on
/// the bytes hold where it is reported.
pub trait Sink {
    /// The bytes that were written, where the sink reports them.
    ghost written: { Self → Option (List ℕ) };

    /// All that was written is flushed: the sink was, and nothing was written since.
    ghost flushed: { Self → Bool };

    /// How many calls have failed, at most the greatest `u64`. It never falls.
    ghost faults: { Self → ℕ };

    /// Appends the first bytes of `piece`, and returns how many: one at least, unless it is empty.
    ///
    /// # Errors
    ///
    /// `Failed` where the sink fails, and `Memory` where an allocation of its own does. Nothing is
    /// appended then. The count of faults rises for `Failed`, and for nothing else.
    fn write(&mut self, piece: &[u8]) -> Result<usize, SinkRefusal>
        ensures bound { WritesAtMost result piece.now }
        ensures some { IfOk result (λ n. 0 < length piece.now → 0 < n) }
        ensures bytes { WriteAppends (written self.old) (written self.new) result piece.now }
        ensures kept_back { OnOk result (flushed self.new ≡ false) }
        ensures cause { CountsFaults (result ≡ Err Failed) (faults self.old) (faults self.new) };

    /// How many pieces of a text go into one write, at least one. It is 1 for a sink whose writes
    /// are counted, so that each piece is a write of its own there.
    fn pieces_a_write(&self) -> usize
        ensures { 0 < result };

    /// Hands on what a buffer below has kept back.
    ///
    /// # Errors
    ///
    /// `Failed` where the sink fails, and `Memory` where an allocation of its own does. What was
    /// written stays. The count of faults rises for `Failed`, and for nothing else.
    fn flush(&mut self) -> Result<(), SinkRefusal>
        ensures bytes { Keeps (written self.old) (written self.new) }
        ensures flushed { OnOk result (flushed self.new ≡ true) }
        ensures cause { CountsFaults (result ≡ Err Failed) (faults self.old) (faults self.new) };
}

/// Why a sink took nothing.
#[derive(Clone, Copy, Debug, PartialEq, Eq)]
pub enum SinkRefusal {
    /// The sink failed, and its count of faults rose.
    Failed,
    /// An allocation of the sink failed.
    Memory,
}

impl From<AllocError> for SinkRefusal {
    ghost from_gives = { λ _ e. e ≡ Memory };

    fn from(_: AllocError) -> Self {
        SinkRefusal::Memory
    }
}

/// Appends the whole piece. Each turn of the loop writes a byte at least, or ends.
///
/// # Errors
///
/// The first refusal of the sink, which ends the writing: a prefix of the piece was written.
pub fn write_all<K: Sink>(sink: &mut K, piece: &[u8]) -> Result<(), SinkRefusal>
    ensures ok { OnOk result (Appends (K.written sink.old) (K.written sink.new) piece.now) }
    ensures err { OnErr result
        (AppendsPrefix (K.written sink.old) (K.written sink.new) piece.now) }
    ensures cause { CountsFaults (result ≡ Err Failed) (K.faults sink.old) (K.faults sink.new) }
{
    let mut at = 0;
    while at < piece.len() {
        at += sink.write(&piece[at..])?;
    }
    Ok(())
}
