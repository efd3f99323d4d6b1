//! The events on prepared labels.
ghost use Rattle.std.specs.Prelude.{◌≡◌, Ok, Some, IfOk, IfSome, MatchResult, OnErr};
ghost use Rattle.std.specs.Option.{option_map, option_and_then};
ghost use Rattle.cred_model.specs.State.{begun_by, numbered, prepared_of, task_of, Changed};
ghost use Rattle.cred_model.specs.Broadcasts.{not_busy};
ghost use Rattle.cred_model.specs.Moves.{not_overridden};
ghost use Rattle.cred_model.specs.Like.{Gives, GivesLike};
ghost use Rattle.cred_sound.specs.Sound.{IsSound};
ghost use Rattle.cred_event.specs.declared.event.Event.TheVariants.{Commit};
ghost use Rattle.cred_model.specs.LabelEvents.{by_abort, by_commit, by_prepare, by_alter};
ghost use Rattle.cred_tables.specs.Kept.{seen_in};
ghost use Rattle.cred_tables.specs.Prepared.{changed_of, IsReady};
ghost use Rattle.cred_tables.specs.Out.{AreHome, AreOut};
ghost use Rattle.cred_state.specs.Refusals.{MayPrepare};
ghost use Rattle.cred_state.specs.Flags.{differs_from};

use crate::state::State;
use cred_decide::committed_by;
use cred_declared::{chain_of, executed_file};
use cred_event::{Answer, Change, Counted, Event, Named};
use cred_hold::Cells;
use cred_ids::{NoMemory, limits};
use cred_script::Script;
use cred_tables::{
    GivenUp, NumberedSlot, Preparation, Ready, drop_all, drop_broadcast, end_with, seal_kept,
};
use cred_work::alter;

impl State {
    /// The label prepares a new credential for the task, based on the one that the hold has, and
    /// keeps the slot that the new one will stand in, in whose words is nothing then. `NoTask`,
    /// `Busy`, `NoHold`, `Exists` and `TooMany` leave the state; `TableFull` leaves it swept.
    ///
    /// # Errors
    ///
    /// `NoMemory` if an allocation of room for the label or for its reference fails: the state is
    /// as it was.
    #[inline(never)]
    pub fn prepare(
        &mut self,
        cells: &Cells,
        label: u32,
        task: u32,
        hold: u32,
    ) -> Result<Answer, NoMemory>
        requires own { self.old.words.id ≡ cells.now }
        requires out { AreOut self.old.state self.old.words.out }
        ensures ok { IfOk result (λ answer.
            GivesLike self.old.state (by_prepare self.old.state label task hold) answer
            self.new.state) }
        ensures err { OnErr result (self.new ≡ self.old) }
        ensures words { self.new.words ≡ self.old.words }
    {
        let base = match self.may_prepare(label, task, hold) {
            Ok(base) => base,
            Err(answer) => return Ok(answer),
        };
        self.slots.reserve()?;
        // The label is entered before its slot is kept, since that may take memory.
        let Some(slot) = self.slots.free_slot() else {
            self.slots.sweep();
            return Ok(Answer::TableFull);
        };
        self.prepared.prepare(
            label,
            Preparation {
                task,
                base,
                slot,
                changed: None,
            },
        )?;
        self.slots.claim(slot);
        self.slots.add(base);
        self.master.clear(cells, slot);
        Ok(Answer::Kept { slot })
    }

    /// The number of the credential that the hold has, where the label may prepare one on it for
    /// the task. `Err` with what refuses it.
    fn may_prepare(&self, label: u32, task: u32, hold: u32) -> Result<u64, Answer>
        ensures { MatchResult result
            (λ base. MayPrepare self.now.state label task hold base)
            (λ answer. Gives self.now.state (by_prepare self.now.state label task hold) answer
            self.now.state) }
    {
        if !self.tasks.alive(task) {
            return Err(Answer::NoTask(task));
        }
        if let Some(broadcast) = self.begun(task) {
            return Err(Answer::Busy(broadcast));
        }
        let Some(base) = self.holds.get(hold) else {
            return Err(Answer::NoHold(hold));
        };
        if self.has_label(label) {
            return Err(Answer::Exists {
                what: Named::Label,
                number: label,
            });
        }
        if self.prepared.len() >= limits::PREPARED {
            return Err(Answer::TooMany(Counted::Prepared));
        }
        Ok(base)
    }

    /// What the label prepared is sealed in the slot that was kept for it, and becomes its task's
    /// current credential (Documentation/security/credentials.rst). Where the last change was an
    /// execve, all other threads of the task's process end (execve(2)), and the process's broadcast
    /// is dropped. `NoPrepared`, also where the label was never changed or was changed last for
    /// access(2), `NoTask`, `Busy`, and `Overridden` while the task acts with another credential
    /// than its current one, leave the state. `Stale` comes where the task's current credential
    /// isn't the base any more: then the label is given up.
    ///
    /// Where an effective or a filesystem id is another one than before, the task's process is no
    /// longer dumpable; otherwise an execve makes it dumpable, unless the permitted set grows
    /// (prctl(2), PR_SET_DUMPABLE).
    ///
    /// # Errors
    ///
    /// `NoMemory` if an allocation of room for the reference or of a list fails: the state is as it
    /// was.
    #[inline(never)]
    pub fn commit(&mut self, cells: &Cells, label: u32) -> Result<Answer, NoMemory>
        requires own { self.old.words.id ≡ cells.now }
        requires out { AreOut self.old.state self.old.words.out }
        requires home { AreHome (Commit label) self.old.words.out }
        requires sound { IsSound self.old.state }
        ensures ok { IfOk result (λ answer.
            GivesLike self.old.state (by_commit self.old.state label) answer self.new.state) }
        ensures err { OnErr result (self.new ≡ self.old) }
        ensures words { self.new.words ≡ self.old.words }
    {
        let Some(Ready { task, base, change }) = self.prepared.ready(label) else {
            return Ok(Answer::NoPrepared(label));
        };
        let Some(now) = self.tasks.current(task) else {
            return Ok(Answer::NoTask(task));
        };
        if let Some(broadcast) = self.begun(task) {
            return Ok(Answer::Busy(broadcast));
        }
        if let Some(depth) = self.overridden(task) {
            return Ok(Answer::Overridden(depth));
        }
        if now != base {
            self.abort(label);
            return Ok(Answer::Stale { base, now });
        }
        let ids_changed = self.changes_ids(cells, label, task);
        self.commit_ready(label, task, now, change, ids_changed)
    }

    /// What the label prepared becomes the current credential of its task, whose current one is the
    /// base. `ids_changed` says whether an effective or a filesystem id is another one in it.
    ///
    /// # Errors
    ///
    /// `NoMemory` if an allocation of room for the reference or of a list fails: the state is as it
    /// was.
    fn commit_ready(
        &mut self,
        label: u32,
        task: u32,
        now: u64,
        change: Change,
        ids_changed: bool,
    ) -> Result<Answer, NoMemory>
        requires out { AreOut self.old.state self.old.words.out }
        requires home { AreHome (Commit label) self.old.words.out }
        requires sound { IsSound self.old.state }
        requires ready { IsReady self.old.state.prepared label task now change }
        requires current { Some now ≡ option_map (λ t. t.current) (task_of self.old.state task) }
        requires idle { not_busy (begun_by self.old.state task) ≡ Ok tt }
        requires allowed { IfSome (task_of self.old.state task) (λ owner.
            not_overridden owner ≡ Ok tt) }
        requires ids_changed { (last : Changed)
            → changed_of self.old.state.prepared label ≡ Some last
            → ids_changed ≡ differs_from self.old.state task last }
        ensures ok { IfOk result (λ answer.
            GivesLike self.old.state (by_commit self.old.state label) answer self.new.state) }
        ensures err { OnErr result (self.new ≡ self.old) }
        ensures words { self.new.words ≡ self.old.words }
    {
        self.slots.reserve()?;
        // It is there: the task is alive.
        let process = self.tasks.process_of(task).unwrap();
        let ended = end_with(self.alloc, &mut self.tasks, change, task)?;
        drop_all(&mut self.slots, ended.numbers.items());
        self.slots.drop_later(now);
        let (kept, last) = self.prepared.finish(label);
        drop_broadcast(&mut self.broadcasts, last.change, process);
        self.flags
            .commit(last.change, &last.gains, process, ids_changed);
        // What was prepared is in the words of its slot already.
        let number = seal_kept(&mut self.slots, kept);
        self.tasks.set_current(task, number);
        let ended = ended.tasks.items().len() as u32;
        Ok(committed_by(last.change, &last.gains, number, kept.slot, ended))
    }

    /// The label gives up what it prepared, with its slot and the reference to its base.
    /// `NoPrepared` leaves the state.
    pub fn abort(&mut self, label: u32) -> Answer
        requires { IsSound self.old.state }
        ensures made { Gives self.old.state (by_abort self.old.state label) result self.new.state }
        ensures words { self.new.words ≡ self.old.words }
    {
        let Some(GivenUp { base, slot }) = self.prepared.give_up(label) else {
            return Answer::NoPrepared(label);
        };
        self.slots.give_up(slot);
        self.slots.drop_later(base);
        Answer::Done
    }

    /// The base of a label. `None` where the label isn't prepared.
    pub(crate) fn base(&self, label: u32) -> Option<NumberedSlot>
        ensures { option_map (seen_in self.now.state.creds) result
            ≡ option_and_then (λ p. numbered self.now.state.creds p.base)
            (prepared_of self.now.state label) }
    {
        let preparation = self.prepared.get(label)?;
        let base = preparation.base;
        self.sealed_at(base)
    }

    /// Changes what a label prepares. What the change makes is decided on the base, and put by the
    /// writer of the slot that the label keeps, which are lent for it in this call.
    ///
    /// # Errors
    ///
    /// `NoMemory` if an allocation of a credential fails: the state is as it was.
    pub fn alter(
        &mut self,
        cells: &Cells,
        script: &Script,
        label: u32,
        change: Change,
    ) -> Result<Answer, NoMemory>
        requires own { self.old.words.id ≡ cells.now }
        requires out { AreOut self.old.state self.old.words.out }
        requires home { AreHome (Event.Alter label change) self.old.words.out }
        requires sound { IsSound self.old.state }
        ensures ok { IfOk result (λ answer.
            GivesLike self.old.state (by_alter script.now self.old.state label change) answer
            self.new.state) }
        ensures err { OnErr result (self.new ≡ self.old) }
        ensures words { self.new.words ≡ self.old.words }
    {
        let ns = self.change_ns(cells, label, change);
        let Some((mut base, mut writer)) = self.lend_kept(cells, label) else {
            return Ok(Answer::NoPrepared(label));
        };
        let file = executed_file(self.inodes(), change);
        let chain = chain_of(script, ns);
        match alter(
            self.alloc,
            cells,
            &mut base,
            &change,
            file,
            chain,
            &mut writer,
        ) {
            Ok(made) => Ok(self.enter_alter(cells, base, writer, change, made)),
            Err(NoMemory) => {
                self.put_earlier(cells, label, writer);
                self.take_hold_back(cells, base);
                Err(NoMemory)
            }
        }
    }
}
