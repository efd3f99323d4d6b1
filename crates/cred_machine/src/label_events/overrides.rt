//! The events by which a task acts with another credential than its current one, and goes back.
ghost use Rattle.std.specs.Prelude.{◌≡◌, None, IfOk, OnErr};
ghost use Rattle.std.specs.Option.{IsSome};
ghost use Rattle.cred_model.specs.State.{held_by, task_of};
ghost use Rattle.cred_model.specs.Like.{Gives};
ghost use Rattle.cred_model.specs.LabelEvents.{by_override, by_revert};
ghost use Rattle.cred_sound.specs.Sound.{IsSound};

use crate::state::State;
use cred_event::Answer;
use cred_ids::{NoMemory, limits};
use cred_plain::Numbered;
use cred_plain::labels::prepared_place;
use cred_record::copy;

impl State {
    /// A task acts with another credential from now on (Linux's `override_creds`;
    /// Documentation/security/credentials.rst): with the one that the label holds, or with what the
    /// task prepared under the label for access(2). Its current credential stays. `NoTask`,
    /// `NoHold` and `TooDeep` leave the state.
    ///
    /// # Errors
    ///
    /// `NoMemory` if an allocation fails: the state is as it was.
    pub(crate) fn override_with(&mut self, task: u32, label: u32) -> Result<Answer, NoMemory>
        requires { IsSound self.old }
        ensures ok { IfOk result (λ answer.
            Gives self.old (by_override self.old task label) answer self.new) }
        ensures err { OnErr result (self.new ≡ self.old) }
    {
        let Some(owner) = self.tasks.get(task) else {
            return Ok(Answer::NoTask(task));
        };
        let depth = owner.depth();
        let Some(Numbered { number, slot, .. }) = self.held(label) else {
            return self.override_prepared(task, label);
        };
        if depth >= limits::DEPTH as u32 {
            return Ok(Answer::TooDeep);
        }
        self.tasks.push_override(task, number)?;
        Ok(Answer::Sealed { cred: number, slot })
    }

    /// A live task acts with what it prepared under the label for access(2), where the label holds
    /// nothing: that is sealed in the slot that was kept for it, and its base is given up.
    fn override_prepared(&mut self, task: u32, label: u32) -> Result<Answer, NoMemory>
        requires sound { IsSound self.old }
        requires alive { IsSome (task_of self.old task) }
        requires unheld { held_by self.old label ≡ None }
        ensures ok { IfOk result (λ answer.
            Gives self.old (by_override self.old task label) answer self.new) }
        ensures err { OnErr result (self.new ≡ self.old) }
    {
        let Some(place) = prepared_place(&self.prepared, label) else {
            return Ok(Answer::NoHold(label));
        };
        let own = &self.prepared[place];
        let Some(last) = own.for_access(task) else {
            return Ok(Answer::NoHold(label));
        };
        // It is there: the task is alive.
        if self.tasks.get(task).unwrap().depth() >= limits::DEPTH as u32 {
            return Ok(Answer::TooDeep);
        }
        let (base, slot) = (own.base, own.slot);
        self.creds.reserve()?;
        self.deferred.reserve(1)?;
        let cred = copy(&last.cred)?;
        let number = self.creds.next_number();
        self.tasks.push_override(task, number)?;
        // There is room.
        self.deferred.push(base).unwrap();
        drop(self.prepared.remove(place));
        self.creds.seal(cred, slot);
        Ok(Answer::Sealed { cred: number, slot })
    }

    /// A task acts again with the credential that it had before its newest override (Linux's
    /// `revert_creds`), and that override's credential is given up. `NoTask` and `NotOverridden`
    /// leave the state.
    ///
    /// # Errors
    ///
    /// `NoMemory` if an allocation fails: the state is as it was.
    pub(crate) fn revert(&mut self, task: u32) -> Result<Answer, NoMemory>
        requires { IsSound self.old }
        ensures ok { IfOk result (λ answer.
            Gives self.old (by_revert self.old task) answer self.new) }
        ensures err { OnErr result (self.new ≡ self.old) }
    {
        let Some(owner) = self.tasks.get(task) else {
            return Ok(Answer::NoTask(task));
        };
        let Some(newest) = owner.newest() else {
            return Ok(Answer::NotOverridden);
        };
        self.deferred.push(newest)?;
        self.tasks.pop_override(task);
        Ok(Answer::Done)
    }
}
