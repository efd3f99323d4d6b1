//! The id calls that one thread makes for itself alone, without the C library, which would have all
//! threads of its process make them (nptl(7)).
ghost use Rattle.std.specs.Prelude.{◌≡◌, IfOk, OnErr};
ghost use Rattle.cred_model.specs.Like.{Gives};
ghost use Rattle.cred_model.specs.Moves.{in_slot, table_full};
ghost use Rattle.cred_model.specs.CallEvents.{by_raw};
ghost use Rattle.cred_machine.specs.Room.{called_alone};

use crate::call_events::broadcasts::call_on_copy;
use crate::slots::Room;
use crate::state::{State, overridden};
use cred_decide::refusal_answer;
use cred_dumpable::differs;
use cred_event::Answer;
use cred_ids::NoMemory;
use cred_plain::broadcasts::open_in;
use cred_record::{Cred, IdCall};

impl State {
    /// A task makes an id call for itself alone: no other thread of its process waits for a step.
    /// `TableFull` leaves the state swept, and the other refusals leave it.
    ///
    /// # Errors
    ///
    /// `NoMemory` if an allocation fails: the state is as it was.
    pub(crate) fn raw(&mut self, task: u32, call: &IdCall) -> Result<Answer, NoMemory>
        ensures ok { IfOk result (λ answer.
            Gives self.old (by_raw self.old task call.now) answer self.new) }
        ensures err { OnErr result (self.new ≡ self.old) }
    {
        let Some(owner) = self.tasks.get(task) else {
            return Ok(Answer::NoTask(task));
        };
        let Some(old) = self.creds.get(owner.current) else {
            return Ok(Answer::NoTask(task));
        };
        let process = owner.process;
        if let Some(broadcast) = open_in(&self.broadcasts, process) {
            return Ok(Answer::Busy(broadcast));
        }
        if let Some(depth) = overridden(owner) {
            return Ok(Answer::Overridden(depth));
        }
        let cred = match call_on_copy(self.alloc, old.cred, call) {
            Ok(cred) => cred,
            Err(refusal) => return refusal_answer(refusal),
        };
        let ids_changed = differs(old.cred, &cred);
        let number = old.number;
        self.replace_alone(task, process, number, cred, ids_changed)
    }

    /// A task of the process has made this credential of its current one, of this number. That
    /// takes a slot. `ids_changed` says that an effective or a filesystem id is another one in it.
    fn replace_alone(
        &mut self,
        task: u32,
        process: u32,
        old: u64,
        cred: Cred,
        ids_changed: bool,
    ) -> Result<Answer, NoMemory>
        ensures ok { IfOk result (λ answer. in_slot self.old table_full
            (λ s slot. called_alone s task process old cred ids_changed slot)
            ≡ (answer, self.new)) }
        ensures err { OnErr result (self.new ≡ self.old) }
    {
        let Room { slot, swept } = self.room()?;
        let Some(slot) = slot else {
            return Ok(self.table_full());
        };
        let number = self.replace(task, old, cred, slot, swept)?;
        self.flags.renew(process, ids_changed);
        Ok(Answer::Sealed { cred: number, slot })
    }
}
