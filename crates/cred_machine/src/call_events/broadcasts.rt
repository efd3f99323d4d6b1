//! The id calls, which every thread of a process makes, one after another (nptl(7)).
ghost use Rattle.std.specs.Prelude.{◌≡◌, ◌≤◌, is_some, length, not, IfOk, IfSome, OnOk, OnErr};
ghost use Rattle.cred_ids.specs.Limits.{TASKS};
ghost use Rattle.cred_event.specs.declared.answer.Answer.TheVariants.{Aborted};
ghost use Rattle.cred_rules.specs.SetId.{set_id};
ghost use Rattle.cred_setid.specs.Becomes.{IsAnew};
ghost use Rattle.cred_model.specs.State.{Broadcast};
ghost use Rattle.cred_model.specs.Like.{Gives};
ghost use Rattle.cred_model.specs.Slots.{free, least_free};
ghost use Rattle.cred_model.specs.Moves.{in_slot, replaced, table_full, at_abort};
ghost use Rattle.cred_model.specs.CallEvents.{aborted, by_act, by_begin};
ghost use Rattle.cred_sound.specs.Sound.{IsSound};
ghost use Rattle.cred_machine.specs.Slots.{AreLive};
ghost use Rattle.cred_machine.specs.Room.{IsCurrentOf, begun, sealed_for, swept_if};

use crate::slots::{Marks, Room, defer_left, live_slots, make_room};
use crate::state::{State, overridden};
use cred_decide::refusal_answer;
use cred_dumpable::differs;
use cred_event::{AbortCause, Answer, Named};
use cred_ids::NoMemory;
use cred_plain::broadcasts::{
    act, broadcast_of, broadcast_place, drop_broadcast, open_broadcast, open_in,
};
use cred_plain::{Broadcast, Ending};
use cred_record::{Cred, IdCall, Refusal, copy};
use cred_setid::apply_to;
use std::alloc::Global;

/// What an id call makes of a copy of the credential.
///
/// # Errors
///
/// What refuses the call. `Memory` also where the copy fails.
pub fn call_on_copy(alloc: Global, cred: &Cred, call: &IdCall) -> Result<Cred, Refusal>
    ensures { IsAnew (set_id cred.now call.now) result }
{
    let mut new = copy(cred)?;
    apply_to(alloc, &mut new, call)?;
    Ok(new)
}

impl State {
    /// A task makes an id call. The other threads of its process then wait for their step; where it
    /// has none, the broadcast is completed at once. `TableFull` leaves the state swept, and the
    /// other refusals leave it. Which slots are live may be known before it and after it.
    ///
    /// # Errors
    ///
    /// `NoMemory` if an allocation fails: the state is as it was.
    pub(crate) fn begin(
        &mut self,
        live: &mut Option<Marks>,
        line: u32,
        task: u32,
        call: &IdCall,
    ) -> Result<Answer, NoMemory>
        requires sound { IsSound self.old }
        requires known { IfSome live.old (λ marks. AreLive marks self.old) }
        ensures ok { IfOk result (λ answer.
            Gives self.old (by_begin self.old line task call.now) answer self.new) }
        ensures live { IfSome live.new (λ marks. AreLive marks self.new) }
        ensures err { OnErr result (self.new ≡ self.old) }
    {
        let Some(owner) = self.tasks.get(task) else {
            return Ok(Answer::NoTask(task));
        };
        let Some(old) = self.creds.get(owner.current) else {
            return Ok(Answer::NoTask(task));
        };
        let process = owner.process;
        if let Some(broadcast) = open_in(&self.broadcasts, process) {
            return Ok(Answer::Busy(broadcast));
        }
        if broadcast_of(&self.broadcasts, line).is_some() {
            return Ok(Answer::Exists {
                what: Named::Broadcast,
                number: line,
            });
        }
        if let Some(depth) = overridden(owner) {
            return Ok(Answer::Overridden(depth));
        }
        let cred = match call_on_copy(self.alloc, old.cred, call) {
            Ok(cred) => cred,
            Err(refusal) => return refusal_answer(refusal),
        };
        let ids_changed = differs(old.cred, &cred);
        let (number, waiting) = (old.number, self.tasks.others(process, task)?);
        let broadcast = Broadcast::new(line, process, task, call.copy()?, waiting);
        self.open(live, broadcast, number, cred, ids_changed)
    }

    /// The caller of a broadcast has made this credential of its current one, of this number. That
    /// takes a slot, and the broadcast is open if anybody waits in it. `ids_changed` says that an
    /// effective or a filesystem id is another one in it.
    fn open(
        &mut self,
        live: &mut Option<Marks>,
        broadcast: Broadcast,
        old: u64,
        cred: Cred,
        ids_changed: bool,
    ) -> Result<Answer, NoMemory>
        requires waiting { length broadcast.waiting ≤ TASKS }
        requires caller { IsCurrentOf self.old broadcast.caller old }
        requires sound { IsSound self.old }
        requires known { IfSome live.old (λ marks. AreLive marks self.old) }
        ensures live { IfSome live.new (λ marks. AreLive marks self.new) }
        ensures ok { IfOk result (λ answer. in_slot self.old table_full
            (λ s slot. begun s broadcast old cred ids_changed slot) ≡ (answer, self.new)) }
        ensures err { OnErr result (self.new ≡ self.old) }
    {
        let mut marks = live_slots(self, live.take())?;
        let Room { slot, swept } = self.room_in(&mut marks)?;
        let Some(slot) = slot else {
            return Ok(self.table_full());
        };
        let (task, process) = (broadcast.caller, broadcast.process);
        let left = broadcast.waiters();
        let before = self.broadcasts.len();
        open_broadcast(&mut self.broadcasts, broadcast)?;
        let number = match self.replace(task, old, cred, slot, swept) {
            Ok(number) => number,
            Err(err) => {
                self.broadcasts.truncate(before);
                return Err(err);
            }
        };
        self.flags.renew(process, ids_changed);
        *live = marks.after_call(slot, swept);
        Ok(Answer::Began {
            cred: number,
            slot,
            left,
        })
    }

    /// The least thread that waits in the broadcast makes the call of it on its own current
    /// credential. `NoBroadcast` leaves the state. Where the call is refused, or where no slot is
    /// free even after a sweep, all threads of the process end and the broadcast is dropped. `room`
    /// is the slot for the credential that it makes.
    ///
    /// # Errors
    ///
    /// `NoMemory` if an allocation fails: the state is as it was.
    pub(crate) fn act(&mut self, line: u32, room: Room) -> Result<Answer, NoMemory>
        requires sound { IsSound self.old }
        requires slot { room.slot ≡ free self.old }
        requires swept { room.swept ≡ not (is_some (least_free self.old)) }
        ensures ok { IfOk result (λ answer.
            Gives self.old (by_act self.old line) answer self.new) }
        ensures err { OnErr result (self.new ≡ self.old) }
    {
        let Some(broadcast_at) = broadcast_place(&self.broadcasts, line) else {
            return Ok(Answer::NoBroadcast(line));
        };
        let broadcast = &self.broadcasts[broadcast_at];
        let Some(task) = broadcast.least() else {
            return Ok(Answer::NoBroadcast(line));
        };
        let Some(task_at) = self.tasks.place(task) else {
            return Ok(Answer::NoBroadcast(line));
        };
        let owner = self.tasks.at(task_at);
        let Some(current) = self.creds.get(owner.current) else {
            return Ok(Answer::NoBroadcast(line));
        };
        let (process, left, number) = (broadcast.process, broadcast.others(), current.number);
        let own = owner.process;
        let cred = match call_on_copy(self.alloc, current.cred, &broadcast.call) {
            Ok(cred) => cred,
            // Whether a call is valid depends on its arguments alone, and its caller has made it:
            // so what the thread lacks is the right.
            Err(Refusal::Perm | Refusal::Invalid) => {
                return self.end_process(process, task, AbortCause::Perm);
            }
            Err(Refusal::Memory) => return Err(NoMemory),
        };
        let ids_changed = differs(current.cred, &cred);
        let Some(slot) = room.slot else {
            return self.end_process(process, task, AbortCause::Full);
        };
        let cred = self.seal(number, cred, slot, room.swept)?;
        self.tasks.set_current_at(task_at, cred);
        act(&mut self.broadcasts, broadcast_at, task);
        self.flags.renew(own, ids_changed);
        Ok(Answer::Acted {
            task,
            cred,
            slot,
            left,
        })
    }

    /// A task's current credential is replaced by this one, which is sealed in the slot, after a
    /// sweep if that needs one. The old one's number is given up.
    ///
    /// # Errors
    ///
    /// `NoMemory` if an allocation fails: the state is as it was.
    pub(crate) fn replace(
        &mut self,
        task: u32,
        old: u64,
        cred: Cred,
        slot: u32,
        swept: bool,
    ) -> Result<u64, NoMemory>
        ensures number { IfOk result (λ number. number ≡ length self.old.creds) }
        ensures ok { OnOk result
            (self.new ≡ replaced (swept_if swept self.old) task old cred slot) }
        ensures err { OnErr result (self.new ≡ self.old) }
    {
        let number = self.seal(old, cred, slot, swept)?;
        self.tasks.set_current(task, number);
        Ok(number)
    }

    /// A credential is sealed in the slot, after a sweep if that needs one. The number of the one
    /// whose place it takes is given up.
    fn seal(&mut self, old: u64, cred: Cred, slot: u32, swept: bool) -> Result<u64, NoMemory>
        ensures number { IfOk result (λ number. number ≡ length self.old.creds) }
        ensures ok { OnOk result
            (self.new ≡ sealed_for (swept_if swept self.old) old cred slot) }
        ensures err { OnErr result (self.new ≡ self.old) }
    {
        make_room(&mut self.creds, &mut self.deferred, swept, &[old])?;
        Ok(self.creds.seal(cred, slot))
    }

    /// A task that waits in the broadcast of its process can't follow: all threads of the process
    /// end, and the broadcast is dropped. Where the task found no slot, the sweep that was made to
    /// find one stands.
    fn end_process(
        &mut self,
        process: u32,
        task: u32,
        cause: AbortCause,
    ) -> Result<Answer, NoMemory>
        ensures answer { IfOk result (λ answer. answer ≡ Aborted task cause) }
        ensures state { OnOk result ((broadcast : Broadcast) → broadcast.process ≡ process
            → self.new ≡ aborted broadcast (at_abort cause self.old)) }
        ensures err { OnErr result (self.new ≡ self.old) }
    {
        let swept = matches!(cause, AbortCause::Full);
        let ending = Ending::Process(process);
        defer_left(&mut self.deferred, swept, &self.tasks, ending)?;
        self.tasks.end(ending);
        drop_broadcast(&mut self.broadcasts, process);
        self.flags.remove(process);
        Ok(Answer::Aborted { task, cause })
    }
}
