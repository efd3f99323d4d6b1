//! A kernel between two parts of its journal.
ghost use Rattle.std.specs.Prelude.{◌≡◌, ◌++◌, [], true, IfOk};
ghost use Rattle.cred_model.specs.Journal.{IsLegal};
ghost use Rattle.cred_book.specs.Parts.{BeginsLegal};
ghost use Rattle.cred_kernel.specs.Turns.{AreAllTurns, AreCounted, AreFresh};

use crate::cells::KernelCells;
use crate::locked::Locked;
use crate::name::Name;
use crate::parts::KernelParts;
use crate::passes::{lend_all, take_all};
use crate::turns::TurnList;
use cred_book::LastPart;
use cred_event::Entry;
use cred_ids::NoMemory;
use cred_script::Script;
use std::alloc::Global;
use std::marker::{Model, PhantomData};

/// A kernel whose lanes stand still between two parts of the journal: nobody shares it. The turns
/// stay lent. Contracts see the journal, and those of its entries that are of earlier parts.
pub struct Rest<K: Name> {
    pub(crate) cells: KernelCells<K>,
    pub(crate) locked: Locked<K>,
}

impl<K: Name> Model for Rest<K> {
    ghost use Rattle.cred_kernel.specs.Locks.{Contents};

    ghost Value = { Contents };

    ghost view = { λ r. r.locked };
}

/// Written out, so that it is proved here alone.
impl<K: Name> Drop for Rest<K> {
    fn drop(self) {
        let Rest { cells, locked } = self;
        drop(cells);
        drop(locked);
    }
}

impl<K: Name> Rest<K> {
    /// The kernel of these parts, before anything of its lanes was entered, and a turn for each
    /// lane from 1, in order. Of each of these lanes nothing has run; only its lines that make no
    /// event count as ended.
    ///
    /// # Errors
    ///
    /// `NoMemory` if the allocation of the list of turns fails.
    pub fn new(alloc: Global, parts: KernelParts) -> Result<(Rest<K>, TurnList<K>), NoMemory>
        requires script { parts.script ≡ K.script }
        requires roll { parts.roll ≡ K.roll }
        requires cells { parts.cells ≡ K.cells }
        requires inodes { parts.inodes ≡ K.inodes }
        ensures fresh { IfOk result (λ made. AreFresh K.script made.1) }
        ensures earlier { IfOk result (λ made. made.0.earlier ≡ []) }
    {
        let KernelParts {
            book,
            cells,
            mut roll,
        } = parts;
        let Ok(turns) = lend_all(alloc, &book, &mut roll) else {
            drop(book);
            return Err(NoMemory);
        };
        let locked = Locked {
            book,
            roll,
            of: PhantomData,
        };
        Ok((
            Rest {
                cells: KernelCells::of(cells),
                locked,
            },
            turns,
        ))
    }

    /// Its cells, and what the lock is to keep.
    pub(crate) fn into_parts(self) -> (KernelCells<K>, Locked<K>)
        ensures { result.1 ≡ self }
    {
        let Rest { cells, locked } = self;
        (cells, locked)
    }

    /// The script.
    pub fn script(&self) -> &Script
        ensures { result.now ≡ K.script }
    {
        self.locked.script()
    }

    /// The entries of this part: the journal is those of the parts before it, and these.
    pub fn entries(&self) -> &[Entry]
        ensures { self.now.journal ≡ self.now.earlier ++ result.now }
    {
        self.locked.entries()
    }

    /// Whatever has been entered, the lanes can go on to their end. Nothing runs: it is called for
    /// its clauses alone.
    #[inline(always)]
    pub fn goes_on(&self)
        ensures journal { BeginsLegal K.script self.now.journal }
        ensures earlier { BeginsLegal K.script self.now.earlier }
    {
        self.locked.goes_on();
    }

    /// Whether no lane has a line left: then the journal is a legal one. No memory is taken.
    pub fn has_ended(&self) -> bool
        ensures { result ≡ true → IsLegal K.script self.now.journal }
    {
        self.locked.has_ended()
    }

    /// Begins the next part: the entries are not kept any more. No memory is taken.
    pub fn begin_part(&mut self)
        ensures { self.new ≡ record self.old { earlier = self.old.journal } }
    {
        self.locked.begin_part();
    }

    /// The last part of the journal, which has as many entries of each lane as the lane's turn has
    /// entered. No memory is taken.
    pub fn close(self, turns: TurnList<K>) -> LastPart
        requires all { AreAllTurns K.script turns }
        ensures script { result.script ≡ K.script }
        ensures entries { self.journal ≡ self.earlier ++ result.entries.items }
        ensures counts { AreCounted K.script self.journal turns }
    {
        let Rest { cells: _, locked } = self;
        let Locked {
            book,
            mut roll,
            of: _,
        } = locked;
        take_all(&mut roll, turns);
        book.into_last_part()
    }
}
