//! What stands under the lock, and the steps that are made there.
ghost use Rattle.std.specs.Prelude.{◌≡◌, ◌<◌, ◌++◌, ◌^◌, true, None, Some};
ghost use Rattle.std.specs.Prelude.{IfOk, IfErr, OnOk, OnErr};
ghost use Rattle.cred_model.specs.Journal.{IsLegal};
ghost use Rattle.cred_work.specs.DecidedWorks.{IsDecided};
ghost use Rattle.cred_book.specs.Parts.{BeginsLegal};
ghost use Rattle.cred_book.specs.Works.{IsWorkOf};
ghost use Rattle.cred_book.specs.declared.step.Step.TheVariants.{More};
ghost use Rattle.cred_kernel.specs.Advances.{Advanced, TurnHasEntered, after_finish, after_step};

use crate::name::Name;
use crate::turns::Turn;
use cred_book::{Book, Step, Unfinished};
use cred_event::Entry;
use cred_hold::Cells;
use cred_ids::NoMemory;
use cred_script::Script;
use cred_turn::{LaneNumbers, Roll};
use cred_work::Work;
use std::marker::{Model, PhantomData};

/// What stands under the lock.
#[derive(Drop)]
pub(crate) struct Locked<K: Name> {
    pub(crate) book: Book,
    pub(crate) roll: Roll,
    pub(crate) of: PhantomData<K>,
}

impl<K: Name> Model for Locked<K> {
    ghost use Rattle.std.specs.Prelude.{◌≡◌};
    ghost use Rattle.cred_kernel.specs.Locks.{Contents, IsLocked};

    ghost Value = { Contents };

    ghost view = { λ s. record {
      journal = s.book.journal;
      earlier = s.book.earlier;
      rows = s.roll.rows;
    } };

    ghost invariant = { λ s. IsLocked K.script K.roll K.cells K.inodes s.book s.roll };
}

impl<K: Name> Locked<K> {
    /// The script.
    pub(crate) fn script(&self) -> &Script
        ensures { result.now ≡ K.script }
    {
        self.book.script()
    }

    /// The entries of this part of the journal.
    pub(crate) fn entries(&self) -> &[Entry]
        ensures { self.now.journal ≡ self.now.earlier ++ result.now }
    {
        self.book.entries()
    }

    /// Whatever has been entered, the lanes can go on to their end.
    #[inline(always)]
    pub(crate) fn goes_on(&self)
        ensures journal { BeginsLegal K.script self.now.journal }
        ensures earlier { BeginsLegal K.script self.now.earlier }
    {
        let _ = self.book.entries();
    }

    /// Whether no lane has a line left: then the journal is a legal one.
    pub(crate) fn has_ended(&self) -> bool
        ensures { result ≡ true → IsLegal K.script self.now.journal }
    {
        self.book.has_ended()
    }

    /// Begins the next part of the journal.
    pub(crate) fn begin_part(&mut self)
        ensures { self.new ≡ record self.old { earlier = self.old.journal } }
    {
        self.book.begin_part();
    }

    /// Whether this part has as many entries as it should have.
    #[inline(always)]
    pub(crate) fn is_full(&self) -> bool {
        self.book.is_full()
    }

    /// Makes the next event of the turn's lane, or hands it out as a work where it waits for a
    /// decision. No return stands between taking the pass back and lending the row again: where
    /// memory ran out the same numbers are lent.
    ///
    /// # Errors
    ///
    /// `NoMemory` if an allocation of the event, the work, the state or the entry fails: the turn
    /// is as it was.
    pub(crate) fn step(&mut self, cells: &Cells, turn: &mut Turn<K>) -> Result<Step, NoMemory>
        requires own { cells.now ≡ K.cells }
        requires out { turn.old.numbers.out ≡ None }
        ensures earlier { self.new.earlier ≡ self.old.earlier }
        ensures step { IfOk result (Advanced K.script K.inodes K.cells turn.old turn.new) }
        ensures err { OnErr result (turn.new ≡ turn.old) }
    {
        let Some(pass) = turn.pass.take() else {
            unreachable!()
        };
        self.roll.take(pass);
        let step = self.book.next(cells, turn.lane);
        turn.numbers = after_step(turn.numbers, &step, self.book.ended(turn.lane));
        turn.pass = Some(self.roll.lend(turn.lane, turn.numbers));
        step
    }

    /// Takes a decided work of the turn's lane back, and enters its event.
    ///
    /// # Errors
    ///
    /// The work as it was, if an allocation of the state or of the entry fails: the turn is as it
    /// was.
    pub(crate) fn finish(
        &mut self,
        cells: &Cells,
        turn: &mut Turn<K>,
        work: Work,
    ) -> Result<Step, Unfinished>
        requires own { cells.now ≡ K.cells }
        requires out { turn.old.numbers.out ≡ Some work.line }
        requires work { IsWorkOf K.script K.inodes K.cells work }
        requires decided { IsDecided work }
        ensures earlier { self.new.earlier ≡ self.old.earlier }
        ensures more { IfOk result (λ step. step ≡ More) }
        ensures entered { OnOk result (TurnHasEntered K.script 1 turn.old turn.new) }
        ensures err { IfErr result (λ left. (left.work ≡ work) × (turn.new ≡ turn.old)) }
    {
        let Some(pass) = turn.pass.take() else {
            unreachable!()
        };
        self.roll.take(pass);
        let step = self.book.finish(cells, turn.lane, work);
        turn.numbers = after_finish(turn.numbers, &step, self.book.ended(turn.lane));
        turn.pass = Some(self.roll.lend(turn.lane, turn.numbers));
        step
    }
}

/// The lane's numbers after a step of it, by which so many of its lines have ended.
fn after_step(before: LaneNumbers, step: &Result<Step, NoMemory>, ended: u32) -> LaneNumbers
    requires room { before.entered < 2 ^ 63 }
    ensures { result ≡ after_step before ended step.now }
{
    match step {
        Ok(Step::More) => LaneNumbers {
            entered: before.entered + 1,
            ended,
            out: None,
            ..before
        },
        Ok(Step::Work(work)) => LaneNumbers {
            ended,
            out: Some(work.line()),
            ..before
        },
        Ok(Step::Ended) | Err(_) => LaneNumbers { ended, ..before },
    }
}

/// The lane's numbers after its work came back, by which so many of its lines have ended. What was
/// entered then is one event more that went out as a work first.
fn after_finish(before: LaneNumbers, step: &Result<Step, Unfinished>, ended: u32) -> LaneNumbers
    requires entered { before.entered < 2 ^ 63 }
    requires decided { before.decided < 2 ^ 63 }
    ensures { result ≡ after_finish before ended step.now }
{
    match step {
        Ok(_) => LaneNumbers {
            entered: before.entered + 1,
            decided: before.decided + 1,
            ended,
            out: None,
        },
        Err(_) => LaneNumbers { ended, ..before },
    }
}
