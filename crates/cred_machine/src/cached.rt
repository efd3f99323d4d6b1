//! The state between events, and one event.
ghost use Rattle.std.specs.Prelude.{◌≡◌, false, length, IfOk, IfSome, MatchBool, None};
ghost use Rattle.std.specs.Prelude.{if◌then◌else◌, OnErr};
ghost use Rattle.cred_model.specs.Like.{Gives, GivesLike};
ghost use Rattle.cred_model.specs.Named.{AreModes, IsEventOf, event_modes};
ghost use Rattle.cred_model.specs.State.{opening};
ghost use Rattle.cred_model.specs.CallEvents.{by_act};
ghost use Rattle.cred_model.specs.Step.{done};
ghost use Rattle.cred_sound.specs.Sound.{IsSound};
ghost use Rattle.cred_machine.specs.Kept.{KeepsReferred, as_begun, may_have_swept};
ghost use Rattle.cred_machine.specs.Kept.{may_have_dropped};
ghost use Rattle.cred_machine.specs.Slots.{AreLive, TakesSlot, keeps_marks, takes_slot};

use crate::slots::{Marks, live_slots};
use crate::state::State;
use cred_declared::root_of;
use cred_event::{AbortCause, Answer, Event};
use cred_ids::NoMemory;
use cred_script::Script;
use std::alloc::Global;
use std::marker::Model;

/// A state, and which of its slots are live where that is known. Contracts see the state. A
/// credential is kept as long as something refers to it, and no longer.
///
/// A preparation takes a slot, and so do an id call and each thread's step in a broadcast. A take,
/// a release, a question, a change and a commit leave those live that are, since what they give up
/// stays until a sweep. So the next preparation or call needs no search through all that refers.
/// Only after another event, a sweep, or a commit that comes too late, whose slot is given up, is
/// there one.
#[derive(Drop)]
pub struct CachedState {
    state: State,
    live: Option<Marks>,
}

impl Model for CachedState {
    ghost use Rattle.cred_model.specs.State.{State};
    ghost use Rattle.cred_machine.specs.Slots.{IsTidy};

    ghost Value = { State };

    ghost view = { λ c. c.state };

    ghost invariant = { λ c. IsTidy c.live c.state };
}

impl CachedState {
    /// The state before a script's first event: its files are as it declares them.
    ///
    /// # Errors
    ///
    /// `NoMemory` if an allocation fails.
    pub fn new(alloc: Global, script: &Script) -> Result<CachedState, NoMemory>
        ensures { IfOk result (λ state. state ≡ opening script.now) }
    {
        Ok(CachedState {
            state: State::new(alloc, script)?,
            live: None,
        })
    }

    /// Makes one event of a line of the script, and returns its answer. What nothing refers to any
    /// more after it is forgotten.
    ///
    /// # Errors
    ///
    /// `NoMemory` if an allocation fails: the state is as it was.
    pub fn step(&mut self, script: &Script, line: u32, event: &Event) -> Result<Answer, NoMemory>
        requires kind { IsEventOf (length script.now.files) script.now.namespaces event.now }
        requires sound { IsSound self.old }
        ensures ok { IfOk result (λ answer.
            GivesLike self.old (done script.now self.old line event.now) answer self.new) }
        ensures kept { KeepsReferred self.new }
        ensures err { OnErr result (self.new ≡ self.old) }
    {
        let before = self.state.given_up();
        let answer = self.state.make(&mut self.live, script, line, event)?;
        keep_marks(&mut self.live, event, &answer);
        let swept = may_have_dropped(event, before, &answer, self.state.given_up());
        self.state.forget_if(swept);
        Ok(answer)
    }
}

impl State {
    /// Makes one event, and forgets nothing. Which slots are live may be known: a preparation, an
    /// id call and a thread's step say which are after it, and no other event does.
    fn make(
        &mut self,
        live: &mut Option<Marks>,
        script: &Script,
        line: u32,
        event: &Event,
    ) -> Result<Answer, NoMemory>
        requires sound { IsSound self.old }
        requires known { IfSome live.old (λ marks. AreLive marks self.old) }
        requires modes { AreModes (event_modes event.now) }
        ensures ok { IfOk result (λ answer.
            Gives self.old (done script.now self.old line event.now) answer self.new) }
        ensures live { MatchBool (takes_slot event.now)
            (IfSome live.new (λ marks. AreLive marks self.new)) (live.new ≡ live.old) }
        ensures err { OnErr result (self.new ≡ self.old) }
    {
        match event {
            Event::Take { label, task, side } => self.take(*label, *task, *side),
            Event::TakeFile { label, fd } => self.take_file(*label, *fd),
            Event::Release { label } => self.release(*label),
            Event::Ask { label, query } => self.ask(*label, *query),
            Event::Prepare { label, task, hold } => self.prepare(live, *label, *task, *hold),
            Event::Alter { label, change } => self.alter(script, *label, *change),
            Event::Commit { label } => self.commit(*label),
            Event::Abort { label } => self.abort(*label),
            Event::Override { task, label } => self.override_with(*task, *label),
            Event::Revert { task } => self.revert(*task),
            Event::Begin { task, call } => self.begin(live, line, *task, call),
            Event::Act { broadcast } => self.act_knowing(live, *broadcast),
            Event::Raw { task, call } => self.raw(*task, call),
            Event::Init {
                task,
                process,
                user,
                group,
                ns,
            } => self.init(*task, *process, *user, *group, *ns, root_of(script, *ns)),
            Event::Spawn { task, child } => self.spawn(*task, *child),
            Event::Fork {
                task,
                child,
                process,
            } => self.fork(*task, *child, *process),
            Event::Exit { task } => self.exit(*task),
            Event::Signal {
                from,
                hold,
                to,
                target,
            } => Ok(self.signal(*from, *hold, *to, *target)),
            Event::Ptrace {
                from,
                hold,
                to,
                target,
                mode,
            } => Ok(self.trace(script, *from, *hold, *to, *target, *mode)),
            Event::Dumpable { task, value } => Ok(self.set_dumpable(*task, *value)),
            Event::Dumped { task } => Ok(self.dumped(*task)),
            Event::OpenFile {
                hold,
                file,
                want,
                fd,
            } => self.open_file(*hold, *file, *want, *fd),
            Event::CloseFile { fd } => self.close_file(*fd),
            Event::Chown { hold, file, .. }
            | Event::Chmod { hold, file, .. }
            | Event::SetAttr { hold, file, .. } => self.change_file(*hold, *file, event),
            Event::Stat { hold, file } => Ok(self.stat(*hold, *file)),
            Event::Sweep => {
                self.sweep();
                Ok(Answer::Done)
            }
        }
    }

    /// A thread that waits in the broadcast makes its step. Which slots are live may be known
    /// before it and after it.
    fn act_knowing(&mut self, live: &mut Option<Marks>, broadcast: u32) -> Result<Answer, NoMemory>
        requires sound { IsSound self.old }
        requires known { IfSome live.old (λ marks. AreLive marks self.old) }
        ensures ok { IfOk result (λ answer.
            Gives self.old (by_act self.old broadcast) answer self.new) }
        ensures live { IfSome live.new (λ marks. AreLive marks self.new) }
        ensures err { OnErr result (self.new ≡ self.old) }
    {
        let mut marks = live_slots(self, live.take())?;
        let room = self.room_in(&mut marks)?;
        let answer = self.act(broadcast, room)?;
        *live = live_after(marks, &answer, room.swept);
        Ok(answer)
    }
}

/// Only after some events it is known which slots are live.
fn keep_marks(live: &mut Option<Marks>, event: &Event, answer: &Answer)
    ensures { live.new ≡ (if keeps_marks event.now answer.now then live.old else None) }
{
    if !keeps_marks(event, answer) {
        *live = None;
    }
}

/// Whether it is still known after the event which slots are live, where it was before. A commit
/// that comes too late gives up the slot that was kept for it.
fn keeps_marks(event: &Event, answer: &Answer) -> bool
    ensures { result ≡ keeps_marks event.now answer.now }
{
    match event {
        Event::Take { .. }
        | Event::Release { .. }
        | Event::Ask { .. }
        | Event::Prepare { .. }
        | Event::Alter { .. }
        | Event::Begin { .. }
        | Event::Act { .. } => true,
        Event::Commit { .. } => !matches!(answer, Answer::Stale { .. }),
        _ => false,
    }
}

/// Which slots are live after a step that answered so, where that is known from those before it.
fn live_after(live: Marks, answer: &Answer, swept: bool) -> Option<Marks>
    ensures { IfSome result (λ marks. (swept ≡ false) × TakesSlot live answer.now marks) }
{
    match answer {
        Answer::Acted { slot, .. } => live.after_call(*slot, swept),
        _ => None,
    }
}

/// Whether the event may have dropped something, where so many references had been given up
/// before it, and so many are after it.
fn may_have_dropped(event: &Event, before: usize, answer: &Answer, after: usize) -> bool
    ensures { result ≡ may_have_dropped event.now before answer.now after }
{
    match event {
        Event::Raw { .. } => raw_may_have_swept(before, answer, after),
        _ => may_have_swept(before, answer, after),
    }
}

/// The same of a call of one thread alone: where it is made it gives one reference up, as one that
/// begins a broadcast does, but it answers as events do that give up none.
fn raw_may_have_swept(before: usize, answer: &Answer, after: usize) -> bool
    ensures { result ≡ may_have_swept before (as_begun answer.now) after }
{
    match answer {
        Answer::Sealed { .. } => after <= before,
        _ => may_have_swept(before, answer, after),
    }
}

/// Whether a sweep may have dropped something, where so many references had been given up before
/// an event that answered so, and so many are after it.
fn may_have_swept(before: usize, answer: &Answer, after: usize) -> bool
    ensures { result ≡ may_have_swept before answer.now after }
{
    match answer {
        Answer::Began { .. } | Answer::Acted { .. } => after <= before,
        Answer::Aborted {
            cause: AbortCause::Full,
            ..
        } => true,
        _ => after < before,
    }
}
