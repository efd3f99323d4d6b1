//! What bytes are read from, and reading to the end within a limit.
ghost use Rattle.std.specs.Prelude.{◌≡◌, ◌≤◌, ◌+◌, List, ℕ, length, IfOk, IsErr};
ghost use Rattle.std.specs.declared.option.Option.{Option};
ghost use Rattle.std.specs.Io.{ReadsAtMost};
ghost use Rattle.std.specs.Io.KnownBytes.{ReadConsumes};
ghost use Rattle.cred_io.specs.Causes.{CountsFaults};
ghost use Rattle.cred_io.specs.Ends.{ReadsAll, ReadsMoreThan, ReadsUpTo};
ghost use Rattle.cred_io.specs.declared.source.ReadRefusal.TheVariants.{Fault, Memory};

use crate::{Bytes, Failed};
use std::alloc::{AllocError, Global};

/// Where bytes come from.
///
/// A real stream does not report what it has left. So that is optional, and the clause on the
/// bytes holds where it is reported.
pub trait Source {
    /// The bytes that are not yet read, where the source reports them.
    ghost left: { Self → Option (List ℕ) };

    /// How many calls have failed, at most the greatest `u64`. It never falls.
    ghost faults: { Self → ℕ };

    /// Moves the first bytes that are left to the beginning of `buf`, and returns how many. Where
    /// `buf` has room, 0 means that none are left.
    ///
    /// # Errors
    ///
    /// `Failed` where the source fails: nothing was taken. The count of faults rises then, and in
    /// no other call.
    fn read(&mut self, buf: &mut [u8]) -> Result<usize, Failed>
        ensures bound { ReadsAtMost result buf.new }
        ensures bytes { ReadConsumes (left self.old) (left self.new) result buf.new }
        ensures cause { CountsFaults (IsErr result) (faults self.old) (faults self.new) };
}

/// Why a source was not read to its end.
#[derive(Clone, Copy, Debug, PartialEq, Eq)]
pub enum ReadRefusal {
    /// The source failed at a read, and its count of faults rose.
    Fault,
    /// There are more bytes than the limit.
    TooLarge,
    /// An allocation for the bytes failed.
    Memory,
}

impl From<Failed> for ReadRefusal {
    ghost from_gives = { λ _ e. e ≡ Fault };

    fn from(_: Failed) -> Self {
        ReadRefusal::Fault
    }
}

impl From<AllocError> for ReadRefusal {
    ghost from_gives = { λ _ e. e ≡ Memory };

    fn from(_: AllocError) -> Self {
        ReadRefusal::Memory
    }
}

/// How many bytes one read asks for. A system call costs as much as a copy of some thousand bytes,
/// and a function pays for its buffer each time that it is called.
const CHUNK: usize = 65_536;

/// Reads to the end, and returns all the bytes if they are no more than `limit`. One byte above the
/// limit shows that there are too many, so no more than that are ever read. Each turn of the loop
/// takes a byte at least, or ends.
///
/// # Errors
///
/// `Fault` where a read fails, which comes before the limit is passed; `TooLarge` where there are
/// more bytes than `limit`; `Memory` if an allocation fails. The bytes that were read are gone
/// then.
pub fn read_all<S: Source>(alloc: Global, source: &mut S, limit: u32) -> Result<Bytes, ReadRefusal>
    ensures whole { IfOk result (ReadsAll (S.left source.old) (S.left source.new)) }
    ensures within { IfOk result (λ bytes. length bytes ≤ limit) }
    ensures too_large { result ≡ Err ReadRefusal.TooLarge
        → ReadsMoreThan limit (S.left source.old) (S.left source.new) }
    ensures fault { result ≡ Err ReadRefusal.Fault
        → ReadsUpTo limit (S.left source.old) (S.left source.new) }
    ensures cause { CountsFaults (result ≡ Err ReadRefusal.Fault)
        (S.faults source.old) (S.faults source.new) }
    ensures no_more { ReadsUpTo (limit + 1) (S.left source.old) (S.left source.new) }
{
    let limit = limit as usize;
    let mut bytes = Vec::new(alloc);
    let mut buf = [0; CHUNK];
    while bytes.len() <= limit {
        let room = CHUNK.min(limit + 1 - bytes.len());
        let count = source.read(&mut buf[..room])?;
        if count == 0 {
            return Ok(Bytes::from_vec(bytes));
        }
        bytes.extend_from_slice(&buf[..count])?;
    }
    Err(ReadRefusal::TooLarge)
}
