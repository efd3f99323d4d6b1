//! The events on holds.
ghost use Rattle.std.specs.Prelude.{◌≡◌, IfOk, OnErr};
ghost use Rattle.cred_model.specs.Like.{Gives};
ghost use Rattle.cred_model.specs.LabelEvents.{by_ask, by_release, by_take, take_hold};
ghost use Rattle.cred_model.specs.LabelEvents.{by_take_file};
ghost use Rattle.cred_model.specs.State.{numbered_in, opener_of};
ghost use Rattle.std.specs.Option.{option_map};
ghost use Rattle.cred_plain.specs.Creds.{seen_numbered};

use crate::state::State;
use cred_decide::reply;
use cred_declared::asked_file;
use cred_event::{Answer, Counted, Named, Query, Side};
use cred_ids::{NoMemory, limits};
use cred_plain::files::open_of;
use cred_plain::labels::hold_place;
use cred_plain::{Hold, Numbered};

impl State {
    /// The label takes hold of the credential that the task acts with, or of the one that it is
    /// acted on by. The refusals leave the state.
    ///
    /// # Errors
    ///
    /// `NoMemory` if an allocation fails: the state is as it was.
    pub(crate) fn take(&mut self, label: u32, task: u32, side: Side) -> Result<Answer, NoMemory>
        ensures ok { IfOk result (λ answer.
            Gives self.old (by_take self.old label task side) answer self.new) }
        ensures err { OnErr result (self.new ≡ self.old) }
    {
        let Some(Numbered { number, slot, .. }) = self.credential(task, side) else {
            return Ok(Answer::NoTask(task));
        };
        self.take_hold(label, number, slot)
    }

    /// The label takes hold of the credential of this number, which stands in this slot.
    ///
    /// # Errors
    ///
    /// `NoMemory` if an allocation fails: the state is as it was.
    pub(crate) fn take_hold(
        &mut self,
        label: u32,
        number: u64,
        slot: u32,
    ) -> Result<Answer, NoMemory>
        ensures ok { IfOk result (λ answer.
            Gives self.old (take_hold self.old label (numbered_in number slot)) answer self.new) }
        ensures err { OnErr result (self.new ≡ self.old) }
    {
        if self.has_label(label) {
            return Ok(Answer::Exists {
                what: Named::Label,
                number: label,
            });
        }
        if self.holds.len() >= limits::HOLDS {
            return Ok(Answer::TooMany(Counted::Holds));
        }
        self.holds.push(Hold { label, number })?;
        Ok(Answer::Sealed { cred: number, slot })
    }

    /// The label drops its hold: the reference to its credential is given up. `NoHold` leaves the
    /// state.
    ///
    /// # Errors
    ///
    /// `NoMemory` if an allocation fails: the state is as it was.
    pub(crate) fn release(&mut self, label: u32) -> Result<Answer, NoMemory>
        ensures ok { IfOk result (λ answer.
            Gives self.old (by_release self.old label) answer self.new) }
        ensures err { OnErr result (self.new ≡ self.old) }
    {
        let Some(place) = hold_place(&self.holds, label) else {
            return Ok(Answer::NoHold(label));
        };
        let number = self.holds[place].number;
        self.deferred.push(number)?;
        self.holds.remove(place);
        Ok(Answer::Done)
    }

    /// A question about the credential that the label holds, and about the file that it names as
    /// that stands.
    ///
    /// # Errors
    ///
    /// `NoMemory` if an allocation of the answer fails.
    pub(crate) fn ask(&self, label: u32, query: Query) -> Result<Answer, NoMemory>
        ensures { IfOk result (λ answer.
            Gives self.now (by_ask self.now label query) answer self.now) }
    {
        match self.held(label) {
            Some(held) => reply(
                self.alloc,
                asked_file(&self.inodes, query),
                held.cred,
                query,
            ),
            None => Ok(Answer::NoHold(label)),
        }
    }

    /// The label takes hold of the credential that the open file was opened by. The refusals leave
    /// the state.
    ///
    /// # Errors
    ///
    /// `NoMemory` if an allocation fails: the state is as it was.
    pub(crate) fn take_file(&mut self, label: u32, fd: u32) -> Result<Answer, NoMemory>
        ensures ok { IfOk result (λ answer.
            Gives self.old (by_take_file self.old label fd) answer self.new) }
        ensures err { OnErr result (self.new ≡ self.old) }
    {
        let Some(Numbered { number, slot, .. }) = self.opener(fd) else {
            return Ok(Answer::Ebadf);
        };
        self.take_hold(label, number, slot)
    }

    /// The credential that the file of a descriptor was opened by.
    fn opener(&self, fd: u32) -> Option<Numbered<'_>>
        ensures { option_map seen_numbered result ≡ opener_of self.now fd }
    {
        let file = open_of(&self.files, fd)?;
        self.creds.get(file.opener)
    }
}
