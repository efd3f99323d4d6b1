//! The lock of a kernel, and the turn of who has it.
ghost use Rattle.std.specs.Prelude.{◌≡◌, None, Some, IfOk, IfErr, OnOk, OnErr};
ghost use Rattle.cred_work.specs.DecidedWorks.{IsDecided};
ghost use Rattle.cred_book.specs.Works.{IsWorkOf};
ghost use Rattle.cred_book.specs.declared.step.Step.TheVariants.{More};
ghost use Rattle.cred_kernel.specs.Advances.{Advanced, TurnHasEntered};

use crate::cells::KernelCells;
use crate::in_part::InPart;
use crate::name::{Name, Part};
use crate::turns::Turn;
use cred_book::{Step, Unfinished};
use cred_ids::NoMemory;
use cred_work::Work;
use std::marker::Model;
use std::sync::MutexGuard;

/// The lock of a kernel, which one thread has, with the turn of the thread's lane: others wait
/// until it is released. The turn comes back when the lock is released, and no sooner. So a worker,
/// which has one turn, has none in hand while it has the lock, and can't decide. Contracts see the
/// turn.
pub struct KernelGuard<'k, K: Name, J: Part> {
    pub(crate) cells: &'k KernelCells<K>,
    pub(crate) locked: MutexGuard<'k, InPart<K, J>>,
    pub(crate) turn: Turn<K>,
}

impl<'k, K: Name, J: Part> Model for KernelGuard<'k, K, J> {
    ghost use Rattle.cred_kernel.specs.Turns.{SeenTurn};

    ghost Value = { SeenTurn };

    ghost view = { λ g. g.turn };
}

/// Written out, so that it is proved here alone.
impl<K: Name, J: Part> Drop for KernelGuard<'_, K, J> {
    fn drop(self) {
        let KernelGuard {
            cells: _,
            locked,
            turn,
        } = self;
        drop(locked);
        drop(turn);
    }
}

impl<K: Name, J: Part> KernelGuard<'_, K, J> {
    /// How many events of the lane have been entered.
    pub fn entered(&self) -> u64
        ensures { result ≡ self.now.numbers.entered }
    {
        self.turn.entered()
    }

    /// Whether the part of the journal has as many entries as it should have.
    // Called for each event of a lane.
    #[inline(always)]
    pub fn is_full(&self) -> bool {
        self.locked.is_full()
    }

    /// Makes the next event of the lane, or hands it out as a work where it waits for a decision.
    /// It returns `Step::Ended` exactly if no line of the lane is left, and then the turn is as it
    /// was. No call changes the turn's lane.
    ///
    /// # Errors
    ///
    /// `NoMemory` if an allocation of the event, the work, the state or the entry fails: the turn
    /// is as it was.
    pub fn advance(&mut self) -> Result<Step, NoMemory>
        requires out { self.old.numbers.out ≡ None }
        ensures step { IfOk result (Advanced K.script K.inodes K.cells self.old self.new) }
        ensures err { OnErr result (self.new ≡ self.old) }
    {
        let cells = self.cells;
        self.locked.step(cells.shared(), &mut self.turn)
    }

    /// Takes a decided work of the lane back, and enters its event. It can't be a work that has
    /// gone out under this lock: to decide one takes the turn.
    ///
    /// # Errors
    ///
    /// The work as it was, if an allocation of the state or of the entry fails: the turn is as it
    /// was.
    pub fn finish(&mut self, work: Work) -> Result<Step, Unfinished>
        requires out { self.old.numbers.out ≡ Some work.line }
        requires work { IsWorkOf K.script K.inodes K.cells work }
        requires decided { IsDecided work }
        ensures more { IfOk result (λ step. step ≡ More) }
        ensures entered { OnOk result (TurnHasEntered K.script 1 self.old self.new) }
        ensures err { IfErr result (λ left. (left.work ≡ work) × (self.new ≡ self.old)) }
    {
        let cells = self.cells;
        self.locked.finish(cells.shared(), &mut self.turn, work)
    }

    /// Releases the lock, and gives the turn back.
    pub fn release(self) -> Turn<K>
        ensures { result ≡ self.entry }
    {
        let KernelGuard {
            cells: _,
            locked,
            turn,
        } = self;
        drop(locked);
        turn
    }
}
