//! The steps of the threads that wait in a broadcast (nptl(7)).
ghost use Rattle.std.specs.Prelude.{◌≡◌, ◌≢◌, ◌<◌, [], length, slice_get, slice_set, Ok, Some};
ghost use Rattle.std.specs.Prelude.{IfOk, IfSome, MatchOption, OnOk, OnErr};
ghost use Rattle.std.specs.Option.{IsSome, IsSomeAnd};
ghost use Rattle.cred_ids.specs.Limits.{SLOTS};
ghost use Rattle.cred_event.specs.declared.answer.Answer.TheVariants.{Aborted, NoBroadcast};
ghost use Rattle.cred_record.specs.Credential.{AreValidSets, Credential};
ghost use Rattle.cred_rules.specs.SetId.{set_id};
ghost use Rattle.cred_model.specs.State.{Broadcast, numbered, task_of};
ghost use Rattle.cred_model.specs.Like.{GivesLike};
ghost use Rattle.cred_model.specs.CallEvents.{aborted, by_act};
ghost use Rattle.cred_model.specs.Moves.{at_abort};
ghost use Rattle.cred_sound.specs.Sound.{IsSound};
ghost use Rattle.cred_broadcasts.specs.Broadcasts.{MakesOf};
ghost use Rattle.cred_hold.specs.Tokens.{IsAlone, IsSealed};
ghost use Rattle.cred_tables.specs.Begin.{ActsNext};
ghost use Rattle.cred_tables.specs.Kept.{cred_under, seen_in, IsInUse};
ghost use Rattle.cred_tables.specs.Out.{AreOut};
ghost use Rattle.cred_setid.specs.Parts.{PartsBecome, parts_of};
ghost use Rattle.cred_state.specs.Replacements.{replacement, HasValidSets};

use crate::state::State;
use cred_broadcasts::{Broadcasts, LastStep};
use cred_dumpable::differs_by;
use cred_event::{AbortCause, Answer};
use cred_hold::{Cells, Master};
use cred_ids::{Groups, NoMemory};
use cred_packed::Head;
use cred_record::Refusal;
use cred_setid::{IdParts, apply_parts};
use cred_tables::{NumberedSlot, drop_all, renew_in, seal_next, sweep_at};

/// A broadcast by its place among the open ones, the least thread that waits in it, that thread's
/// place among the tasks, and its current credential.
#[derive(Clone, Copy)]
struct Next {
    broadcast: usize,
    task: u32,
    place: usize,
    now: NumberedSlot,
}

/// The words that the call makes of a thread's credential, and whether an effective or a filesystem
/// id is another one in them.
#[derive(Clone, Copy)]
struct Known {
    after: Head,
    ids_changed: bool,
}

/// The credential that a thread gets in place of its own.
#[derive(Drop)]
pub enum Replacement {
    /// Its own with these parts, and with these groups where some are given.
    Changed(IdParts, Option<Groups>),
    /// The one that has these words.
    Words(Head),
}

impl State {
    /// The least thread that waits in the broadcast makes the broadcast's call on its own current
    /// credential. `NoBroadcast` leaves the state. Where the call is refused, or where no slot is
    /// free even after a sweep, all threads of the process end and the broadcast is dropped.
    ///
    /// # Errors
    ///
    /// `NoMemory` if an allocation of the groups that are set, of room for a reference or of a list
    /// fails: the state is as it was.
    #[inline(never)]
    pub fn act(&mut self, cells: &Cells, number: u32) -> Result<Answer, NoMemory>
        requires own { self.old.words.id ≡ cells.now }
        requires out { AreOut self.old.state self.old.words.out }
        requires sound { IsSound self.old.state }
        ensures ok { IfOk result (λ answer.
            GivesLike self.old.state (by_act self.old.state number) answer self.new.state) }
        ensures err { OnErr result (self.new ≡ self.old) }
        ensures words { self.new.words ≡ self.old.words }
    {
        let Some(next) = self.next_in(number) else {
            return Ok(Answer::NoBroadcast(number));
        };
        if let Some(last) = self.last_like(cells, number, next) {
            let by = Replacement::Words(last.after);
            return self.act_with(cells, number, next, None, &by, last.ids_changed);
        }
        self.act_anew(cells, number, next)
    }

    /// The step of the thread that is next, whose credential is read and changed by the call.
    ///
    /// # Errors
    ///
    /// As `act` has them.
    #[inline(never)]
    fn act_anew(&mut self, cells: &Cells, number: u32, next: Next) -> Result<Answer, NoMemory>
        requires own { self.old.words.id ≡ cells.now }
        requires out { AreOut self.old.state self.old.words.out }
        requires sound { IsSound self.old.state }
        requires next { ActsNext self.old.state number next.broadcast next.task next.place
            (seen_in self.old.state.creds next.now) }
        ensures ok { IfOk result (λ answer.
            GivesLike self.old.state (by_act self.old.state number) answer self.new.state) }
        ensures err { OnErr result (self.new ≡ self.old) }
        ensures words { self.new.words ≡ self.old.words }
    {
        let before = self.read_head(cells, next.now);
        let mut parts = self.read_parts(cells, next.now);
        let own = parts;
        match self.follow(next.broadcast, &mut parts) {
            Ok(groups) => {
                let ids_changed = differs_by(&own.uid, &own.gid, &parts.uid, &parts.gid);
                let by = Replacement::Changed(parts, groups);
                self.act_with(cells, number, next, before, &by, ids_changed)
            }
            // `Invalid` depends on the call alone, which its caller has made: so what the thread
            // meets is `Perm`.
            Err(Refusal::Perm | Refusal::Invalid) => {
                self.end_process_of(next.task, AbortCause::Perm)
            }
            Err(Refusal::Memory) => Err(NoMemory),
        }
    }

    /// The words of the credential that was found. `None` exactly where it has groups. Something
    /// refers to it.
    fn read_head(&mut self, cells: &Cells, found: NumberedSlot) -> Option<Head>
        requires own { self.old.words.id ≡ cells.now }
        requires found { numbered self.old.state.creds found.number
            ≡ Some (seen_in self.old.state.creds found) }
        requires used { IsInUse self.old.state found.number }
        ensures head { let c = cred_under self.old.state.creds found.number in
            MatchOption result (c.groups ≢ []) (λ head. head ≡ c) }
        ensures same { self.new ≡ self.old }
    {
        self.master.head(cells, found.slot)
    }

    /// The step before in the broadcast, where it was made on the current credential of the thread
    /// that is next: the call makes the same of that one.
    #[inline(always)]
    fn last_like(&mut self, cells: &Cells, number: u32, next: Next) -> Option<Known>
        requires own { self.old.words.id ≡ cells.now }
        requires sound { IsSound self.old.state }
        requires next { ActsNext self.old.state number next.broadcast next.task next.place
            (seen_in self.old.state.creds next.now) }
        ensures made { IfSome result (λ last.
            IfSome (slice_get self.old.state.broadcasts next.broadcast) (λ b.
            MakesOf b.call (cred_under self.old.state.creds next.now.number) last.after
            last.ids_changed)) }
        ensures same { self.new ≡ self.old }
    {
        let _ = number;
        let last = self.broadcasts.last_at(next.broadcast)?;
        if !self.master.has_head(cells, next.now.slot, &last.before) {
            return None;
        }
        Some(Known {
            after: last.after,
            ids_changed: last.ids_changed,
        })
    }

    /// Makes the call of the open broadcast at a place on the parts of a credential. Returns the
    /// groups, where the call sets them.
    ///
    /// # Errors
    ///
    /// What refuses the call. The parts then stay.
    #[inline(always)]
    fn follow(&self, broadcast: usize, parts: &mut IdParts) -> Result<Option<Groups>, Refusal>
        requires { broadcast < length self.now.state.broadcasts }
        ensures made { IfSome (slice_get self.now.state.broadcasts broadcast) (λ b. (c : Credential)
            → parts_of c ≡ parts.old
            → PartsBecome c parts.old parts.new result (set_id c b.call)) }
        ensures valid { (c : Credential) → parts_of c ≡ parts.old →
            AreValidSets c.perm c.inh c.eff c.amb →
            AreValidSets parts.new.perm c.inh parts.new.eff parts.new.amb }
    {
        apply_parts(self.alloc, parts, self.broadcasts.call_at(broadcast))
    }

    /// The step of the thread that is next, where the call makes this of its current credential.
    /// `ids_changed` says that an effective or a filesystem id is another one in it: then its
    /// process is no longer dumpable. The step is kept where the words before it are given.
    #[inline(always)]
    fn act_with(
        &mut self,
        cells: &Cells,
        number: u32,
        next: Next,
        before: Option<Head>,
        by: &Replacement,
        ids_changed: bool,
    ) -> Result<Answer, NoMemory>
        requires own { self.old.words.id ≡ cells.now }
        requires out { AreOut self.old.state self.old.words.out }
        requires sound { IsSound self.old.state }
        requires next { ActsNext self.old.state number next.broadcast next.task next.place
            (seen_in self.old.state.creds next.now) }
        requires before { IfSome before (λ head.
            head ≡ cred_under self.old.state.creds next.now.number) }
        requires made { let c = cred_under self.old.state.creds next.now.number in
            IfSome (slice_get self.old.state.broadcasts next.broadcast) (λ b.
            MakesOf b.call c (replacement c by.now) ids_changed) }
        requires valid { HasValidSets (cred_under self.old.state.creds next.now.number) by.now }
        ensures ok { IfOk result (λ answer.
            GivesLike self.old.state (by_act self.old.state number) answer self.new.state) }
        ensures err { OnErr result (self.new ≡ self.old) }
        ensures words { self.new.words ≡ self.old.words }
    {
        self.slots.reserve()?;
        let Some(slot) = self.slots.free_slot() else {
            return self.end_process_of(next.task, AbortCause::Full);
        };
        renew_in(&self.tasks, &mut self.flags, next.task, ids_changed);
        let new = seal_next(&mut self.slots, slot);
        put_over(&mut self.master, cells, next.now.slot, slot, by);
        keep_step(
            &mut self.master,
            &mut self.broadcasts,
            cells,
            next.broadcast,
            before,
            slot,
            ids_changed,
        );
        self.tasks.set_current_at(next.place, new);
        self.slots.drop_later(next.now.number);
        let left = self.broadcasts.act_at(next.broadcast, next.task);
        Ok(Answer::Acted {
            task: next.task,
            cred: new,
            slot,
            left,
        })
    }

    /// The thread that makes its step next in a broadcast. `None` where none of that number is
    /// open.
    fn next_in(&self, number: u32) -> Option<Next>
        requires { IsSound self.now.state }
        ensures { MatchOption result
            (GivesLike self.now.state (by_act self.now.state number) (NoBroadcast number)
            self.now.state)
            (λ next. ActsNext self.now.state number next.broadcast next.task next.place
            (seen_in self.now.state.creds next.now)) }
    {
        let Some(broadcast) = self.broadcasts.place(number) else {
            return None;
        };
        let task = self.broadcasts.least_at(broadcast);
        // It is there: who waits in a broadcast is alive.
        let place = self.tasks.place(task).unwrap();
        let Some(now) = self.sealed_at(self.tasks.current_at(place)) else {
            return None;
        };
        Some(Next {
            broadcast,
            task,
            place,
            now,
        })
    }

    /// A task that waits in a broadcast can't follow: all threads of its process end, and the
    /// broadcast of the process is dropped. Where it found no slot, the sweep that was made to find
    /// one stands.
    #[inline(never)]
    fn end_process_of(&mut self, task: u32, cause: AbortCause) -> Result<Answer, NoMemory>
        requires { IsSome (task_of self.old.state task) }
        ensures answer { IfOk result (λ answer. answer ≡ Aborted task cause) }
        ensures state { OnOk result (IfSome (task_of self.old.state task) (λ owner.
            (broadcast : Broadcast) → broadcast.process ≡ owner.process
            → self.new.state ≡ aborted broadcast (at_abort cause self.old.state))) }
        ensures err { OnErr result (self.new ≡ self.old) }
        ensures words { self.new.words ≡ self.old.words }
    {
        // It is there: who waits in a broadcast is alive.
        let process = self.tasks.process_of(task).unwrap();
        let ended = self.tasks.end_process(process)?;
        sweep_at(&mut self.slots, cause);
        drop_all(&mut self.slots, ended.numbers.items());
        self.broadcasts.drop_in(process);
        self.flags.remove(process);
        Ok(Answer::Aborted { task, cause })
    }
}

/// Puts on a slot on which nothing is lent what replaces the credential of another slot, which is
/// sealed.
#[inline(always)]
fn put_over(master: &mut Master, cells: &Cells, from: u32, slot: u32, by: &Replacement)
    requires own { master.old.id ≡ cells.now }
    requires sealed { IsSealed master.old.slots from }
    requires within { slot < SLOTS }
    requires alone { IsAlone master.old.loans slot }
    requires apart { from ≢ slot }
    requires valid { (c : Credential) → slice_get master.old.slots from ≡ Some (Some c) →
        HasValidSets c by.now }
    ensures made { (c : Credential) → slice_get master.old.slots from ≡ Some (Some c) →
        master.new ≡ record master.old {
          slots = slice_set master.old.slots slot (Some (replacement c by.now));
        } }
    ensures long { length master.old.slots ≡ SLOTS }
{
    match by {
        Replacement::Changed(parts, groups) => master.set_like(cells, from, slot, parts, groups),
        Replacement::Words(head) => master.set_head(cells, slot, head),
    }
}

/// Keeps a step of the broadcast at a place, where neither what it was made on nor what it made,
/// which the slot has, has groups.
#[inline(always)]
fn keep_step(
    master: &mut Master,
    broadcasts: &mut Broadcasts,
    cells: &Cells,
    place: usize,
    before: Option<Head>,
    slot: u32,
    ids_changed: bool,
)
    requires own { master.old.id ≡ cells.now }
    requires sealed { IsSealed master.old.slots slot }
    requires made { (c : Credential) → slice_get master.old.slots slot ≡ Some (Some c) →
        IfSome before (λ head. IsSomeAnd (slice_get broadcasts.old place) (λ b.
        MakesOf b.call head c ids_changed)) }
    ensures master { master.new ≡ master.old }
    ensures broadcasts { broadcasts.new ≡ broadcasts.old }
{
    let Some(before) = before else {
        return;
    };
    if let Some(after) = master.head(cells, slot) {
        broadcasts.keep_at(
            place,
            LastStep {
                before,
                after,
                ids_changed,
            },
        );
    }
}
