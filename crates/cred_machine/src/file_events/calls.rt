//! The events that change a file (chown(2), chmod(2), setxattr(2)), and stat(2).
ghost use Rattle.std.specs.Prelude.{◌≡◌, true, IfOk, OnErr};
ghost use Rattle.cred_model.specs.FileChanges.{changed_by, event_changes};
ghost use Rattle.cred_model.specs.Like.{Gives};
ghost use Rattle.cred_model.specs.Named.{AreModes, event_modes};
ghost use Rattle.cred_model.specs.FileEvents.{by_file, by_stat};
ghost use Rattle.cred_machine.specs.Written.{IsMadeBy};

use crate::state::State;
use cred_attr::{chmod, chown, set_attr};
use cred_decide::refusal_answer;
use cred_event::{Answer, Event, Told};
use cred_ids::NoMemory;
use cred_record::{Cred, FileInfo, Refusal, copy_attr};

/// What chown(2), chmod(2), or a call that sets the capability attribute makes of a file.
///
/// # Errors
///
/// What refuses the call. `Memory` also where it would be refused otherwise.
fn changed(event: &Event, cred: &Cred, file: &FileInfo) -> Result<FileInfo, Refusal>
    requires changes { event_changes event.now ≡ true }
    requires modes { AreModes (event_modes event.now) }
    ensures { IsMadeBy (changed_by event.now cred.now file.now) result }
{
    match event {
        Event::Chown { owner, group, .. } => chown(cred, file, *owner, *group),
        Event::Chmod { mode, .. } => chmod(cred, file, *mode),
        Event::SetAttr { attr, .. } => set_attr(cred, file, copy_attr(attr)?),
        // No other event changes a file.
        _ => unreachable!(),
    }
}

impl State {
    /// The file is from then on what the event's call makes of it, by the credential that the hold
    /// has (chown(2), chmod(2), setxattr(2)). The refusals leave the state.
    ///
    /// # Errors
    ///
    /// `NoMemory` if an allocation fails: the state is as it was.
    pub(crate) fn change_file(
        &mut self,
        hold: u32,
        file: u32,
        event: &Event,
    ) -> Result<Answer, NoMemory>
        requires changes { event_changes event.now ≡ true }
        requires modes { AreModes (event_modes event.now) }
        ensures ok { IfOk result (λ answer.
            Gives self.old (by_file self.old hold file (changed_by event.now)) answer self.new) }
        ensures err { OnErr result (self.new ≡ self.old) }
    {
        let Some(held) = self.held(hold) else {
            return Ok(Answer::NoHold(hold));
        };
        let Some(old) = self.inodes.file(file) else {
            return Ok(Answer::NoHold(hold));
        };
        match changed(event, held.cred, old) {
            Ok(new) => {
                self.inodes.replace(file, new);
                Ok(Answer::Done)
            }
            Err(refusal) => refusal_answer(refusal),
        }
    }

    /// How does the file stand (stat(2))? The label is to hold a credential.
    pub(crate) fn stat(&self, hold: u32, file: u32) -> Answer
        ensures { Gives self.now (by_stat self.now hold file) result self.now }
    {
        let Some(_) = self.held(hold) else {
            return Answer::NoHold(hold);
        };
        match self.inodes.file(file) {
            Some(info) => Answer::Told(Told::File {
                owner: info.owner,
                group: info.group,
                mode: info.mode,
                attr: info.attr.is_some(),
            }),
            None => Answer::NoHold(hold),
        }
    }
}
