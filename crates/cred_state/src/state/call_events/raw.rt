//! An id call that a task makes for itself alone: the system call without its wrapper in the C
//! library, which would let the other threads of the process follow (nptl(7)).
ghost use Rattle.std.specs.Prelude.{◌≡◌, Ok, IfOk, MatchResult, OnErr};
ghost use Rattle.cred_record.specs.declared.id_call.IdCall.{IdCall as Call};
ghost use Rattle.cred_record.specs.Credential.{AreValidSets};
ghost use Rattle.cred_rules.specs.SetId.{set_id};
ghost use Rattle.cred_model.specs.Dumpable.{differs};
ghost use Rattle.cred_model.specs.Like.{Gives, GivesLike};
ghost use Rattle.cred_model.specs.CallEvents.{by_raw};
ghost use Rattle.cred_setid.specs.Parts.{changed};
ghost use Rattle.cred_sound.specs.Sound.{IsSound};
ghost use Rattle.cred_tables.specs.Kept.{cred_under, seen_in};
ghost use Rattle.cred_tables.specs.Out.{AreOut};
ghost use Rattle.cred_state.specs.Refusals.{MayCallAlone};

use crate::state::State;
use crate::state::replaces::replace_in;
use cred_decide::refusal_answer;
use cred_dumpable::differs_by;
use cred_event::Answer;
use cred_hold::Cells;
use cred_ids::{Groups, NoMemory};
use cred_record::IdCall;
use cred_setid::{IdParts, apply_parts};
use cred_tables::NumberedSlot;

impl State {
    /// A task makes an id call for itself alone: nobody waits, and no other thread of its process
    /// has another credential by it. `NoTask`, `Busy`, `Overridden`, `Eperm` and `Einval` leave the
    /// state; `TableFull` leaves it swept.
    ///
    /// # Errors
    ///
    /// `NoMemory` if an allocation of the groups that are set or of room for a reference fails: the
    /// state is as it was.
    #[inline(never)]
    pub(crate) fn raw(
        &mut self,
        cells: &Cells,
        task: u32,
        call: &IdCall,
    ) -> Result<Answer, NoMemory>
        requires own { self.old.words.id ≡ cells.now }
        requires out { AreOut self.old.state self.old.words.out }
        requires sound { IsSound self.old.state }
        ensures ok { IfOk result (λ answer.
            GivesLike self.old.state (by_raw self.old.state task call.now) answer
            self.new.state) }
        ensures err { OnErr result (self.new ≡ self.old) }
        ensures words { self.new.words ≡ self.old.words }
    {
        let now = match self.may_call_alone(task) {
            Ok(now) => now,
            Err(answer) => return Ok(answer),
        };
        let mut parts = self.read_parts(cells, now);
        let old = parts;
        match apply_parts(self.alloc, &mut parts, call) {
            Ok(groups) => {
                let ids_changed = differs_by(&old.uid, &old.gid, &parts.uid, &parts.gid);
                self.raw_with(cells, task, now, &parts, &groups, ids_changed)
            }
            Err(refusal) => refusal_answer(refusal),
        }
    }

    /// The call of a task that may make it, which gives the task's current credential these parts,
    /// and these groups where it sets them. `ids_changed` says that an effective or a filesystem id
    /// is another one in these: then the task's process is no longer dumpable.
    fn raw_with(
        &mut self,
        cells: &Cells,
        task: u32,
        now: NumberedSlot,
        parts: &IdParts,
        groups: &Option<Groups>,
        ids_changed: bool,
    ) -> Result<Answer, NoMemory>
        requires own { self.old.words.id ≡ cells.now }
        requires out { AreOut self.old.state self.old.words.out }
        requires sound { IsSound self.old.state }
        requires may { MayCallAlone self.old.state task (seen_in self.old.state.creds now) }
        requires valid { let c = cred_under self.old.state.creds now.number in
            AreValidSets parts.now.perm c.inh parts.now.eff parts.now.amb }
        requires ids_changed { let c = cred_under self.old.state.creds now.number in
            ids_changed ≡ differs c (changed c parts.now groups.now) }
        ensures ok { (call : Call)
            → (let c = cred_under self.old.state.creds now.number in
            set_id c call ≡ Ok (changed c parts.now groups.now))
            → IfOk result (λ answer.
            GivesLike self.old.state (by_raw self.old.state task call) answer self.new.state) }
        ensures err { OnErr result (self.new ≡ self.old) }
        ensures words { self.new.words ≡ self.old.words }
    {
        self.slots.reserve()?;
        let Some(slot) = self.slots.free_slot() else {
            self.slots.sweep();
            return Ok(Answer::TableFull);
        };
        let cred = replace_in(
            &mut self.tasks,
            &mut self.flags,
            &mut self.slots,
            &mut self.master,
            cells,
            task,
            slot,
            now,
            parts,
            groups,
            ids_changed,
        );
        Ok(Answer::Sealed { cred, slot })
    }

    /// The current credential of a task that makes an id call for itself alone. `Err` with what
    /// refuses the call before its own rule is applied.
    fn may_call_alone(&self, task: u32) -> Result<NumberedSlot, Answer>
        ensures { MatchResult result
            (λ now. MayCallAlone self.now.state task (seen_in self.now.state.creds now))
            (λ answer. (call : Call) →
            Gives self.now.state (by_raw self.now.state task call) answer self.now.state) }
    {
        let Some(now) = self.current(task) else {
            return Err(Answer::NoTask(task));
        };
        // It is there: the task is alive.
        let process = self.tasks.process_of(task).unwrap();
        if let Some(broadcast) = self.broadcasts.open_in(process) {
            return Err(Answer::Busy(broadcast));
        }
        if let Some(depth) = self.overridden(task) {
            return Err(Answer::Overridden(depth));
        }
        Ok(now)
    }
}
