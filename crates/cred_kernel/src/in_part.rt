//! What stands under the lock while a part of the journal is made.
ghost use Rattle.std.specs.Prelude.{◌≡◌, None, Some, IfOk, IfErr, OnOk, OnErr};
ghost use Rattle.cred_work.specs.DecidedWorks.{IsDecided};
ghost use Rattle.cred_book.specs.Works.{IsWorkOf};
ghost use Rattle.cred_book.specs.declared.step.Step.TheVariants.{More};
ghost use Rattle.cred_kernel.specs.Advances.{Advanced, TurnHasEntered};

use crate::locked::Locked;
use crate::name::{Name, Part};
use crate::turns::Turn;
use cred_book::{Step, Unfinished};
use cred_hold::Cells;
use cred_ids::NoMemory;
use cred_work::Work;
use std::marker::{Model, PhantomData};

/// What stands under the lock, of which the entries of earlier parts are the name's. So no step
/// under the lock can begin another part.
#[derive(Drop)]
pub(crate) struct InPart<K: Name, J: Part> {
    locked: Locked<K>,
    of: PhantomData<J>,
}

impl<K: Name, J: Part> Model for InPart<K, J> {
    ghost use Rattle.std.specs.Prelude.{◌≡◌};
    ghost use Rattle.cred_kernel.specs.Locks.{Contents};

    ghost Value = { Contents };

    ghost view = { λ p. p.locked };

    ghost invariant = { λ p. p.locked.earlier ≡ J.earlier };
}

impl<K: Name, J: Part> InPart<K, J> {
    /// This, in the part.
    pub(crate) fn of(locked: Locked<K>) -> InPart<K, J>
        requires { locked.earlier ≡ J.earlier }
    {
        InPart {
            locked,
            of: PhantomData,
        }
    }

    /// What stands there once the part has ended.
    pub(crate) fn into_locked(self) -> Locked<K>
        ensures { result.earlier ≡ J.earlier }
    {
        let InPart { locked, of: _ } = self;
        locked
    }

    /// Whether the part has as many entries as it should have.
    #[inline(always)]
    pub(crate) fn is_full(&self) -> bool {
        self.locked.is_full()
    }

    /// Makes the next event of the turn's lane, or hands it out as a work.
    ///
    /// # Errors
    ///
    /// `NoMemory` if an allocation of the event, the work, the state or the entry fails: the turn
    /// is as it was.
    #[inline(always)]
    pub(crate) fn step(&mut self, cells: &Cells, turn: &mut Turn<K>) -> Result<Step, NoMemory>
        requires own { cells.now ≡ K.cells }
        requires out { turn.old.numbers.out ≡ None }
        ensures step { IfOk result (Advanced K.script K.inodes K.cells turn.old turn.new) }
        ensures err { OnErr result (turn.new ≡ turn.old) }
    {
        self.locked.step(cells, turn)
    }

    /// Takes a decided work of the turn's lane back, and enters its event.
    ///
    /// # Errors
    ///
    /// The work as it was, if an allocation of the state or of the entry fails: the turn is as it
    /// was.
    #[inline(always)]
    pub(crate) fn finish(
        &mut self,
        cells: &Cells,
        turn: &mut Turn<K>,
        work: Work,
    ) -> Result<Step, Unfinished>
        requires own { cells.now ≡ K.cells }
        requires out { turn.old.numbers.out ≡ Some work.line }
        requires work { IsWorkOf K.script K.inodes K.cells work }
        requires decided { IsDecided work }
        ensures more { IfOk result (λ step. step ≡ More) }
        ensures entered { OnOk result (TurnHasEntered K.script 1 turn.old turn.new) }
        ensures err { IfErr result (λ left. (left.work ≡ work) × (turn.new ≡ turn.old)) }
    {
        self.locked.finish(cells, turn, work)
    }
}
