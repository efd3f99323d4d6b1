//! The events on prepared labels.
ghost use Rattle.std.specs.Prelude.{◌≡◌, ◌<◌, length, slice_get, IfOk, IfSome, OnOk, OnErr};
ghost use Rattle.cred_model.specs.Like.{Gives};
ghost use Rattle.cred_model.specs.LabelEvents.{by_abort, by_alter, by_commit, by_prepare};
ghost use Rattle.cred_model.specs.Moves.{given_up};
ghost use Rattle.cred_model.specs.Broadcasts.{broadcasts_left};
ghost use Rattle.cred_sound.specs.Sound.{IsSound};
ghost use Rattle.cred_machine.specs.Labels.{CanCommit, Commits, IsOnCurrent};
ghost use Rattle.cred_machine.specs.Slots.{AreLive};
ghost use Rattle.cred_plain.specs.Tasks.{ending_of};

use crate::slots::{Marks, Room, live_slots, make_room, sweep_if};
use crate::state::{State, differs_from, overridden};
use cred_decide::{Made, change as change_of, committed_by};
use cred_declared::{chain_of, executed_file};
use cred_event::{Answer, Change, Counted, Named};
use cred_ids::{NoMemory, limits};
use cred_plain::broadcasts::{begun_by, drop_broadcast};
use cred_plain::labels::{change_at, hold_of, prepared_of, prepared_place};
use cred_plain::{Broadcast, Changed, Ending, Numbered, Prepared};
use cred_record::copy;
use cred_script::Script;

impl State {
    /// The label prepares a new credential for the task, based on the one that the hold has, and
    /// keeps the slot that the new one will stand in. `NoTask`, `Busy`, `NoHold`, `Exists` and
    /// `TooMany` leave the state; `TableFull` leaves it swept. Which slots are live may be known
    /// before it and after it.
    ///
    /// # Errors
    ///
    /// `NoMemory` if an allocation fails: the state is as it was.
    pub(crate) fn prepare(
        &mut self,
        live: &mut Option<Marks>,
        label: u32,
        task: u32,
        hold: u32,
    ) -> Result<Answer, NoMemory>
        requires { IfSome live.old (λ marks. AreLive marks self.old) }
        ensures ok { IfOk result (λ answer.
            Gives self.old (by_prepare self.old label task hold) answer self.new) }
        ensures live { IfSome live.new (λ marks. AreLive marks self.new) }
        ensures err { OnErr result (self.new ≡ self.old) }
    {
        if !self.tasks.alive(task) {
            return Ok(Answer::NoTask(task));
        }
        if let Some(broadcast) = begun_by(&self.broadcasts, task) {
            return Ok(Answer::Busy(broadcast));
        }
        let Some(held) = hold_of(&self.holds, hold) else {
            return Ok(Answer::NoHold(hold));
        };
        let base = held.number;
        if self.has_label(label) {
            return Ok(Answer::Exists {
                what: Named::Label,
                number: label,
            });
        }
        if self.prepared.len() >= limits::PREPARED {
            return Ok(Answer::TooMany(Counted::Prepared));
        }
        let mut marks = live_slots(self, live.take())?;
        let Room { slot, swept } = self.room_in(&mut marks)?;
        let Some(slot) = slot else {
            return Ok(self.table_full());
        };
        self.prepared.push(Prepared {
            label,
            task,
            base,
            slot,
            changed: None,
        })?;
        sweep_if(&mut self.deferred, swept);
        *live = marks.after_call(slot, swept);
        Ok(Answer::Kept { slot })
    }

    /// What the label prepares is its base, changed so, by an execve of a file as that stands.
    /// `NoPrepared` and the refusals of the change leave the state, and with it what an earlier
    /// change made of the base.
    ///
    /// # Errors
    ///
    /// `NoMemory` if an allocation fails: the state is as it was.
    pub(crate) fn alter(
        &mut self,
        script: &Script,
        label: u32,
        change: Change,
    ) -> Result<Answer, NoMemory>
        requires { IsSound self.old }
        ensures ok { IfOk result (λ answer.
            Gives self.old (by_alter script.now self.old label change) answer self.new) }
        ensures err { OnErr result (self.new ≡ self.old) }
    {
        let Some(label_of) = prepared_of(&self.prepared, label) else {
            return Ok(Answer::NoPrepared(label));
        };
        let Some(Numbered { cred: base, .. }) = self.creds.get(label_of.base) else {
            return Ok(Answer::NoPrepared(label));
        };
        let file = executed_file(&self.inodes, change);
        let chain = chain_of(script, base.ns);
        let Made {
            answer,
            cred,
            gains,
        } = match change_of(base, file, chain, &change)? {
            Ok(made) => made,
            Err(answer) => return Ok(answer),
        };
        let to = Changed {
            change,
            cred,
            gains,
        };
        change_at(&mut self.prepared, label, to);
        Ok(answer)
    }

    /// What the label prepared is sealed in the slot that was kept for it, and becomes its task's
    /// current credential (Documentation/security/credentials.rst). Where the last change was an
    /// execve, all other threads of the task's process end (execve(2)), and the process's broadcast
    /// is dropped. `Stale` comes where the task's current credential isn't the base any more: then
    /// the label is given up. The other refusals leave the state.
    ///
    /// # Errors
    ///
    /// `NoMemory` if an allocation fails: the state is as it was.
    pub(crate) fn commit(&mut self, label: u32) -> Result<Answer, NoMemory>
        ensures ok { IfOk result (λ answer.
            Gives self.old (by_commit self.old label) answer self.new) }
        ensures err { OnErr result (self.new ≡ self.old) }
    {
        let Some(place) = prepared_place(&self.prepared, label) else {
            return Ok(Answer::NoPrepared(label));
        };
        let own = &self.prepared[place];
        let Some(last) = own.for_task() else {
            return Ok(Answer::NoPrepared(label));
        };
        let Some(owner) = self.tasks.get(own.task) else {
            return Ok(Answer::NoTask(own.task));
        };
        if let Some(broadcast) = begun_by(&self.broadcasts, own.task) {
            return Ok(Answer::Busy(broadcast));
        }
        if let Some(depth) = overridden(owner) {
            return Ok(Answer::Overridden(depth));
        }
        self.try_commit(place)
    }

    /// What the label at this place prepared becomes its task's current credential, if its base is
    /// that still. Nothing else refuses it any more.
    fn try_commit(&mut self, place: usize) -> Result<Answer, NoMemory>
        requires { CanCommit self.old place }
        ensures ok { IfOk result (λ answer. Commits self.old place answer self.new) }
        ensures err { OnErr result (self.new ≡ self.old) }
    {
        let own = &self.prepared[place];
        // It is there: its task is alive.
        let owner = self.tasks.get(own.task).unwrap();
        let (base, now) = (own.base, owner.current);
        if now != base {
            self.give_up(place)?;
            return Ok(Answer::Stale { base, now });
        }
        self.settle(place)
    }

    /// What the label at this place prepared becomes its task's current credential, which is its
    /// base now.
    fn settle(&mut self, place: usize) -> Result<Answer, NoMemory>
        requires can { CanCommit self.old place }
        requires current { IsOnCurrent self.old place }
        ensures ok { IfOk result (λ answer. Commits self.old place answer self.new) }
        ensures err { OnErr result (self.new ≡ self.old) }
    {
        let own = &self.prepared[place];
        // Both are there: the label was changed, and its task is alive.
        let last = own.changed.as_ref().unwrap();
        let owner = self.tasks.get(own.task).unwrap();
        let (task, process, slot) = (own.task, owner.process, own.slot);
        let ids_changed = differs_from(&self.creds, owner.current, &last.cred);
        let ending = ends_with(last.change, process, task);
        let ended = self.tasks.count(ending);
        let mut numbers = self.tasks.left(ending)?;
        numbers.extend_from_slice(&[owner.current, own.base])?;
        let cred = copy(&last.cred)?;
        make_room(&mut self.creds, &mut self.deferred, false, &numbers)?;
        self.tasks.end(ending);
        drop_with(&mut self.broadcasts, last.change, process);
        let number = self.creds.seal(cred, slot);
        self.tasks.set_current(task, number);
        self.flags
            .commit(last.change, &last.gains, process, ids_changed);
        let answer = committed_by(last.change, &last.gains, number, slot, ended);
        drop(self.prepared.remove(place));
        Ok(answer)
    }

    /// The label gives up what it prepared, with its slot and the reference to its base.
    /// `NoPrepared` leaves the state.
    ///
    /// # Errors
    ///
    /// `NoMemory` if an allocation fails: the state is as it was.
    pub(crate) fn abort(&mut self, label: u32) -> Result<Answer, NoMemory>
        ensures ok { IfOk result (λ answer.
            Gives self.old (by_abort self.old label) answer self.new) }
        ensures err { OnErr result (self.new ≡ self.old) }
    {
        let Some(place) = prepared_place(&self.prepared, label) else {
            return Ok(Answer::NoPrepared(label));
        };
        self.give_up(place)?;
        Ok(Answer::Done)
    }

    /// The label at this place gives up what it prepared.
    fn give_up(&mut self, place: usize) -> Result<(), NoMemory>
        requires { place < length self.old.prepared }
        ensures ok { OnOk result (IfSome (slice_get self.old.prepared place) (λ p.
            self.new ≡ given_up self.old place p)) }
        ensures err { OnErr result (self.new ≡ self.old) }
    {
        let base = self.prepared[place].base;
        self.deferred.push(base)?;
        drop(self.prepared.remove(place));
        Ok(())
    }
}

/// The tasks that end where a task commits this change: all other threads of its process with an
/// execve (execve(2)), and none with another change.
fn ends_with(change: Change, process: u32, task: u32) -> Ending
    ensures { result ≡ ending_of change process task }
{
    match change {
        Change::Exec { .. } => Ending::Others { process, task },
        _ => Ending::Nobody,
    }
}

/// The process's broadcast is dropped where one of its threads commits an execve (execve(2)).
fn drop_with(broadcasts: &mut Vec<Broadcast>, change: Change, process: u32)
    ensures { broadcasts.new.items ≡ broadcasts_left change process broadcasts.old.items }
{
    if let Change::Exec { .. } = change {
        drop_broadcast(broadcasts, process);
    }
}
