//! The id calls, which every thread of a process makes, one after another, and the open broadcasts,
//! which refuse other events while threads still wait in them (nptl(7)). `acts` has the steps of
//! those threads.
ghost use Rattle.std.specs.Prelude.{◌≡◌, Ok, Err, Some, IfOk, MatchOption, MatchResult, OnErr};
ghost use Rattle.cred_event.specs.declared.answer.Answer.TheVariants.{Busy};
ghost use Rattle.cred_record.specs.declared.id_call.IdCall.{IdCall as Call};
ghost use Rattle.cred_record.specs.Credential.{AreValidSets};
ghost use Rattle.cred_rules.specs.SetId.{set_id};
ghost use Rattle.cred_model.specs.State.{begun_by, broadcast_in, numbered};
ghost use Rattle.cred_model.specs.Broadcasts.{not_busy};
ghost use Rattle.cred_model.specs.Dumpable.{differs};
ghost use Rattle.cred_model.specs.Like.{Gives, GivesLike};
ghost use Rattle.cred_model.specs.CallEvents.{by_begin};
ghost use Rattle.cred_sound.specs.Sound.{IsSound};
ghost use Rattle.cred_tables.specs.Begin.{MayBegin};
ghost use Rattle.cred_tables.specs.Kept.{cred_under, seen_in, IsInUse};
ghost use Rattle.cred_tables.specs.Out.{AreOut};
ghost use Rattle.cred_setid.specs.Parts.{changed, parts_of};

use crate::state::State;
use crate::state::replaces::replace_in;
use cred_decide::refusal_answer;
use cred_dumpable::differs_by;
use cred_event::{Answer, Named};
use cred_hold::Cells;
use cred_ids::{Groups, NoMemory};
use cred_record::IdCall;
use cred_setid::{IdParts, apply_parts};
use cred_tables::{NumberedSlot, begin_in};

impl State {
    /// A task makes an id call. The other threads of its process then wait for their step; where it
    /// has none, the broadcast is completed at once. `NoTask`, `Busy`, `Exists`, `Overridden`,
    /// `Eperm` and `Einval` leave the state; `TableFull` leaves it swept.
    ///
    /// # Errors
    ///
    /// `NoMemory` if an allocation of the groups that are set, of room for a reference, of a list
    /// or of the call's copy fails: the state is as it was.
    #[inline(never)]
    pub fn begin(
        &mut self,
        cells: &Cells,
        line: u32,
        task: u32,
        call: &IdCall,
    ) -> Result<Answer, NoMemory>
        requires own { self.old.words.id ≡ cells.now }
        requires out { AreOut self.old.state self.old.words.out }
        requires sound { IsSound self.old.state }
        ensures ok { IfOk result (λ answer.
            GivesLike self.old.state (by_begin self.old.state line task call.now) answer
            self.new.state) }
        ensures err { OnErr result (self.new ≡ self.old) }
        ensures words { self.new.words ≡ self.old.words }
    {
        let now = match self.may_begin(line, task) {
            Ok(now) => now,
            Err(answer) => return Ok(answer),
        };
        let mut parts = self.read_parts(cells, now);
        let old = parts;
        match apply_parts(self.alloc, &mut parts, call) {
            Ok(groups) => {
                let ids_changed = differs_by(&old.uid, &old.gid, &parts.uid, &parts.gid);
                self.begin_with(cells, line, task, call, now, &parts, &groups, ids_changed)
            }
            Err(refusal) => refusal_answer(refusal),
        }
    }

    /// What an id call looks at of the credential that was found. Something refers to it.
    #[inline(always)]
    pub(crate) fn read_parts(&mut self, cells: &Cells, found: NumberedSlot) -> IdParts
        requires own { self.old.words.id ≡ cells.now }
        requires found { numbered self.old.state.creds found.number
            ≡ Some (seen_in self.old.state.creds found) }
        requires used { IsInUse self.old.state found.number }
        ensures parts { let c = cred_under self.old.state.creds found.number in
            (result ≡ parts_of c) × AreValidSets c.perm c.inh c.eff c.amb }
        ensures same { self.new ≡ self.old }
    {
        self.master.read_parts(cells, found.slot)
    }

    /// The call of a task that may make it, which gives the task's current credential these parts,
    /// and these groups where it sets them. `ids_changed` says that an effective or a filesystem id
    /// is another one in these: then the task's process is no longer dumpable.
    fn begin_with(
        &mut self,
        cells: &Cells,
        line: u32,
        task: u32,
        call: &IdCall,
        now: NumberedSlot,
        parts: &IdParts,
        groups: &Option<Groups>,
        ids_changed: bool,
    ) -> Result<Answer, NoMemory>
        requires own { self.old.words.id ≡ cells.now }
        requires out { AreOut self.old.state self.old.words.out }
        requires sound { IsSound self.old.state }
        requires may { MayBegin self.old.state line task (seen_in self.old.state.creds now) }
        requires made { let c = cred_under self.old.state.creds now.number in
            set_id c call.now ≡ Ok (changed c parts.now groups.now) }
        requires valid { let c = cred_under self.old.state.creds now.number in
            AreValidSets parts.now.perm c.inh parts.now.eff parts.now.amb }
        requires ids_changed { let c = cred_under self.old.state.creds now.number in
            ids_changed ≡ differs c (changed c parts.now groups.now) }
        ensures ok { IfOk result (λ answer.
            GivesLike self.old.state (by_begin self.old.state line task call.now) answer
            self.new.state) }
        ensures err { OnErr result (self.new ≡ self.old) }
        ensures words { self.new.words ≡ self.old.words }
    {
        self.slots.reserve()?;
        let Some(slot) = self.slots.free_slot() else {
            self.slots.sweep();
            return Ok(Answer::TableFull);
        };
        // The others wait before the credential is sealed, since that may take memory.
        let left = begin_in(&self.tasks, &mut self.broadcasts, line, task, call)?;
        let number = replace_in(
            &mut self.tasks,
            &mut self.flags,
            &mut self.slots,
            &mut self.master,
            cells,
            task,
            slot,
            now,
            parts,
            groups,
            ids_changed,
        );
        Ok(Answer::Began {
            cred: number,
            slot,
            left,
        })
    }

    /// The current credential of a task that makes an id call. `Err` with what refuses the call
    /// before its own rule is applied.
    fn may_begin(&self, line: u32, task: u32) -> Result<NumberedSlot, Answer>
        ensures { MatchResult result
            (λ now. MayBegin self.now.state line task (seen_in self.now.state.creds now))
            (λ answer. (call : Call) →
            Gives self.now.state (by_begin self.now.state line task call) answer self.now.state) }
    {
        let Some(now) = self.current(task) else {
            return Err(Answer::NoTask(task));
        };
        // It is there: the task is alive.
        let process = self.tasks.process_of(task).unwrap();
        if let Some(broadcast) = self.broadcasts.open_in(process) {
            return Err(Answer::Busy(broadcast));
        }
        if self.broadcasts.caller_of(line).is_some() {
            return Err(Answer::Exists {
                what: Named::Broadcast,
                number: line,
            });
        }
        if let Some(depth) = self.overridden(task) {
            return Err(Answer::Overridden(depth));
        }
        Ok(now)
    }

    /// The open broadcast that the task has begun. Until it is completed the task prepares and
    /// commits nothing, creates no task and doesn't end. `None` where it has begun none.
    pub fn begun(&self, task: u32) -> Option<u32>
        ensures { MatchOption result
            (not_busy (begun_by self.now.state task) ≡ Ok tt)
            (λ number. not_busy (begun_by self.now.state task) ≡ Err (Busy number)) }
    {
        self.broadcasts.begun_by(task)
    }

    /// The broadcast that is open in a process. Until it is completed no task of that process
    /// begins another, and no other task is put in it. `None` where none is open there.
    pub fn open_in(&self, process: u32) -> Option<u32>
        ensures { MatchOption result
            (not_busy (broadcast_in self.now.state process) ≡ Ok tt)
            (λ number. not_busy (broadcast_in self.now.state process) ≡ Err (Busy number)) }
    {
        self.broadcasts.open_in(process)
    }
}
