//! The events on holds.
ghost use Rattle.std.specs.Prelude.{◌≡◌, IfOk, OnErr};
ghost use Rattle.cred_model.specs.Like.{Gives};
ghost use Rattle.cred_model.specs.LabelEvents.{by_release, by_take, take_hold, by_ask};
ghost use Rattle.cred_model.specs.LabelEvents.{by_take_file};
ghost use Rattle.cred_model.specs.State.{numbered_in, opener_of};
ghost use Rattle.cred_tables.specs.Kept.{IsInUse, seen_in};
ghost use Rattle.cred_sound.specs.Sound.{IsSound};
ghost use Rattle.cred_tables.specs.Out.{AreHome, AreOut};
ghost use Rattle.std.specs.Option.{option_map};

use crate::state::State;
use cred_declared::asked_file;
use cred_event::{Answer, Counted, Event, Named, Query, Side};
use cred_hold::Cells;
use cred_ids::{NoMemory, limits};
use cred_tables::NumberedSlot;
use cred_work::{NoPause, decide};

impl State {
    /// The label takes hold of the credential that a task acts with, or is acted on by. The
    /// refusals leave the state.
    ///
    /// # Errors
    ///
    /// `NoMemory` if an allocation of room for the hold or for its reference fails: the state is as
    /// it was.
    #[inline(never)]
    pub fn take(&mut self, label: u32, task: u32, side: Side) -> Result<Answer, NoMemory>
        ensures ok { IfOk result (λ answer.
            Gives self.old.state (by_take self.old.state label task side) answer self.new.state) }
        ensures err { OnErr result (self.new ≡ self.old) }
        ensures words { self.new.words ≡ self.old.words }
    {
        let Some(NumberedSlot { number, slot }) = self.credential(task, side) else {
            return Ok(Answer::NoTask(task));
        };
        self.take_hold(label, number, slot)
    }

    /// The label takes hold of the credential of this number, which stands in this slot.
    ///
    /// # Errors
    ///
    /// As `take` has them.
    #[inline(always)]
    pub(crate) fn take_hold(
        &mut self,
        label: u32,
        number: u64,
        slot: u32,
    ) -> Result<Answer, NoMemory>
        requires { IsInUse self.old.state number }
        ensures ok { IfOk result (λ answer.
            Gives self.old.state (take_hold self.old.state label (numbered_in number slot)) answer
            self.new.state) }
        ensures err { OnErr result (self.new ≡ self.old) }
        ensures words { self.new.words ≡ self.old.words }
    {
        if self.has_label(label) {
            return Ok(Answer::Exists {
                what: Named::Label,
                number: label,
            });
        }
        if self.holds.len() >= limits::HOLDS {
            return Ok(Answer::TooMany(Counted::Holds));
        }
        self.slots.reserve()?;
        self.holds.take(label, number)?;
        self.slots.add(number);
        Ok(Answer::Sealed { cred: number, slot })
    }

    /// The label drops what it holds. `NoHold` leaves the state.
    #[inline(never)]
    pub fn release(&mut self, label: u32) -> Answer
        ensures made { Gives self.old.state (by_release self.old.state label) result
            self.new.state }
        ensures words { self.new.words ≡ self.old.words }
    {
        let Some(number) = self.holds.release(label) else {
            return Answer::NoHold(label);
        };
        self.slots.drop_later(number);
        Answer::Done
    }

    /// Answers a question on the hold that is lent for it in this call. Questions are many, so
    /// nothing is made for one that only other decisions need.
    ///
    /// # Errors
    ///
    /// `NoMemory` if an allocation of groups or of a credential fails: the state is as it was.
    pub fn ask(&mut self, cells: &Cells, label: u32, query: Query) -> Result<Answer, NoMemory>
        requires own { self.old.words.id ≡ cells.now }
        requires out { AreOut self.old.state self.old.words.out }
        requires home { AreHome (Event.Ask label query) self.old.words.out }
        requires sound { IsSound self.old.state }
        ensures ok { IfOk result (λ answer.
            Gives self.old.state (by_ask self.old.state label query) answer self.new.state) }
        ensures same { self.new ≡ self.old }
    {
        let Some(found) = self.held(label) else {
            return Ok(Answer::NoHold(label));
        };
        let mut hold = self.lend_found(cells, label, found);
        let told = decide(
            self.alloc,
            cells,
            &NoPause,
            &mut hold,
            query,
            asked_file(self.inodes(), query),
        );
        self.take_hold_back(cells, hold);
        told
    }

    /// The label takes hold of the credential that the open file was opened by. The refusals leave
    /// the state.
    ///
    /// # Errors
    ///
    /// `NoMemory` if an allocation of room for the hold or for its reference fails: the state is as
    /// it was.
    pub fn take_file(&mut self, label: u32, fd: u32) -> Result<Answer, NoMemory>
        ensures ok { IfOk result (λ answer.
            Gives self.old.state (by_take_file self.old.state label fd) answer self.new.state) }
        ensures err { OnErr result (self.new ≡ self.old) }
        ensures words { self.new.words ≡ self.old.words }
    {
        let Some(NumberedSlot { number, slot }) = self.opener(fd) else {
            return Ok(Answer::Ebadf);
        };
        self.take_hold(label, number, slot)
    }

    /// The credential that the file of a descriptor was opened by.
    fn opener(&self, fd: u32) -> Option<NumberedSlot>
        ensures { option_map (seen_in self.now.state.creds) result ≡ opener_of self.now.state fd }
    {
        let number = self.files.opener(fd)?;
        self.sealed_at(number)
    }
}
