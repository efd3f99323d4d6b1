//! The events by which a task acts with another credential than its current one, and goes back.
ghost use Rattle.std.specs.Prelude.{◌≡◌, Ok, Err, None, IfOk, IfSome, MatchOption, OnErr};
ghost use Rattle.std.specs.Option.{IsSome};
ghost use Rattle.cred_event.specs.declared.answer.Answer.TheVariants.{Overridden};
ghost use Rattle.cred_event.specs.declared.event.Event.TheVariants.{Override};
ghost use Rattle.cred_model.specs.State.{held_by, task_of};
ghost use Rattle.cred_model.specs.Like.{Gives, GivesLike};
ghost use Rattle.cred_model.specs.Moves.{not_overridden};
ghost use Rattle.cred_model.specs.LabelEvents.{by_override, by_revert};
ghost use Rattle.cred_sound.specs.Sound.{IsSound};
ghost use Rattle.cred_tables.specs.Out.{AreHome, AreOut};

use crate::state::State;
use cred_event::Answer;
use cred_ids::NoMemory;
use cred_tables::{NumberedSlot, seal_kept};

impl State {
    /// A task acts with another credential from now on (Linux's `override_creds`;
    /// Documentation/security/credentials.rst): with the one that the label holds, or with what the
    /// task prepared under the label for access(2). Its current credential stays. `NoTask`,
    /// `NoHold` and `TooDeep` leave the state.
    ///
    /// # Errors
    ///
    /// `NoMemory` if an allocation of room for the reference fails: the state is as it was.
    pub fn override_with(&mut self, task: u32, label: u32) -> Result<Answer, NoMemory>
        requires out { AreOut self.old.state self.old.words.out }
        requires home { AreHome (Override task label) self.old.words.out }
        requires sound { IsSound self.old.state }
        ensures ok { IfOk result (λ answer.
            GivesLike self.old.state (by_override self.old.state task label) answer
            self.new.state) }
        ensures err { OnErr result (self.new ≡ self.old) }
        ensures words { self.new.words ≡ self.old.words }
    {
        if !self.tasks.alive(task) {
            return Ok(Answer::NoTask(task));
        }
        let Some(NumberedSlot { number, slot }) = self.held(label) else {
            return self.override_prepared(task, label);
        };
        self.slots.reserve()?;
        if !self.tasks.push_override(task, number) {
            return Ok(Answer::TooDeep);
        }
        self.slots.add(number);
        Ok(Answer::Sealed { cred: number, slot })
    }

    /// A live task acts with what it prepared under the label for access(2), where the label holds
    /// nothing: that is sealed in the slot that was kept for it, and its base is given up.
    fn override_prepared(&mut self, task: u32, label: u32) -> Result<Answer, NoMemory>
        requires out { AreOut self.old.state self.old.words.out }
        requires home { AreHome (Override task label) self.old.words.out }
        requires sound { IsSound self.old.state }
        requires alive { IsSome (task_of self.old.state task) }
        requires unheld { held_by self.old.state label ≡ None }
        ensures ok { IfOk result (λ answer.
            GivesLike self.old.state (by_override self.old.state task label) answer
            self.new.state) }
        ensures err { OnErr result (self.new ≡ self.old) }
        ensures words { self.new.words ≡ self.old.words }
    {
        if !self.prepared.is_for_access(label, task) {
            return Ok(Answer::NoHold(label));
        }
        self.slots.reserve()?;
        // The next number is pushed before it is sealed, since a task may have too many overrides.
        let next = self.slots.next_number();
        if !self.tasks.push_override(task, next) {
            return Ok(Answer::TooDeep);
        }
        // What was prepared is in the words of its slot already.
        let (kept, _) = self.prepared.finish(label);
        let number = seal_kept(&mut self.slots, kept);
        Ok(Answer::Sealed {
            cred: number,
            slot: kept.slot,
        })
    }

    /// A task acts again with the credential that it had before its newest override (Linux's
    /// `revert_creds`), and that override's credential is given up. `NoTask` and `NotOverridden`
    /// leave the state.
    pub fn revert(&mut self, task: u32) -> Answer
        requires { IsSound self.old.state }
        ensures made { Gives self.old.state (by_revert self.old.state task) result self.new.state }
        ensures words { self.new.words ≡ self.old.words }
    {
        if !self.tasks.alive(task) {
            return Answer::NoTask(task);
        }
        let Some(number) = self.tasks.pop_override(task) else {
            return Answer::NotOverridden;
        };
        self.slots.drop_later(number);
        Answer::Done
    }

    /// How many overrides a live task has, where it has some: then its current credential can't be
    /// replaced or shared, and it can't end. `None` where it has none.
    pub fn overridden(&self, task: u32) -> Option<u32>
        ensures { IfSome (task_of self.now.state task) (λ owner. MatchOption result
            (not_overridden owner ≡ Ok tt)
            (λ depth. not_overridden owner ≡ Err (Overridden depth))) }
    {
        match self.tasks.depth(task)? {
            0 => None,
            depth => Some(depth),
        }
    }
}
