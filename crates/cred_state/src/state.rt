//! The state of a run: the tasks, the open broadcasts, the open files, the holds, the prepared
//! labels, which processes are dumpable, the script's files as they stand, the master of the shared
//! words that the credentials stand in, and a table of slots that counts the references to them.
ghost use Rattle.std.specs.Prelude.{◌≡◌, ◌||◌, ℕ, [], Some, is_some, length, IfOk, OnErr};
ghost use Rattle.std.specs.Option.{option_map};
ghost use Rattle.cred_event.specs.declared.event.Event.TheVariants.{Sweep};
ghost use Rattle.cred_model.specs.Script.{Script as Declared};
ghost use Rattle.cred_model.specs.State.{opening, hold_of, prepared_of, current_of, credential_of};
ghost use Rattle.cred_model.specs.State.{held_by, numbered};
ghost use Rattle.cred_model.specs.Slots as model;
ghost use Rattle.cred_model.specs.Step.{done};
ghost use Rattle.cred_model.specs.Named.{IsEventOf};
ghost use Rattle.cred_model.specs.Like.{Gives, GivesLike};
ghost use Rattle.cred_sound.specs.Sound.{IsSound};
ghost use Rattle.cred_tables.specs.Kept.{cred_under, seen_in, AreInPlace, IsInUse};
ghost use Rattle.cred_tables.specs.Out.{AreHome, AreOut};

mod call_events;
mod enters;
mod file_events;
mod label_events;
mod lends;
mod replaces;
mod returns;
mod task_events;

use cred_broadcasts::Broadcasts;
use cred_declared::{FileTable, declared_files, root_of};
use cred_dumpable::DumpableFlags;
use cred_event::{Answer, Event, Side};
use cred_files::Files;
use cred_hold::{Cells, Master, make};
use cred_ids::NoMemory;
use cred_procs::Procs;
use cred_record::Cred;
use cred_script::Script;
use cred_slots::Slots;
use cred_tables::{Holds, NumberedSlot, Preparing, sealed_at};
use std::alloc::Global;
use std::marker::Model;

/// The state of a run. Its credentials stand in the shared words alone. Contracts see under each
/// sealed number what stands in the words of its slot: where nothing refers to the number any more,
/// that may be a later credential. They see which cells the words are in, and what is lent of them.
pub struct State {
    tasks: Procs,
    broadcasts: Broadcasts,
    files: Files,
    holds: Holds,
    prepared: Preparing,
    flags: DumpableFlags,
    inodes: FileTable,
    master: Master,
    slots: Slots,
    alloc: Global,
}

impl Model for State {
    ghost use Rattle.cred_tables.specs.Kept.{as_lists, state_of, IsKept, Standing};
    ghost use Rattle.cred_tables.specs.Out.{ArePut};

    ghost Value = { Standing };

    ghost view = { λ s. record {
      state = state_of (as_lists s.tasks s.broadcasts s.files s.holds s.prepared s.flags s.inodes)
          s.master.slots s.slots;
      words = record { id = s.master.id; out = s.master.loans };
      places = s.master.slots;
    } };

    ghost invariant = { λ s.
        IsKept (as_lists s.tasks s.broadcasts s.files s.holds s.prepared s.flags s.inodes)
        s.master.slots s.slots
        × ArePut s.prepared s.master.loans s.master.slots };
}

/// Written out, so that it is proved here alone: with a derived one, each crate above that drops a
/// state would prove all parts again.
impl Drop for State {
    fn drop(self) {
        let State {
            tasks,
            broadcasts,
            files,
            holds,
            prepared,
            flags,
            inodes,
            master,
            slots,
            alloc: _,
        } = self;
        drop(tasks);
        drop(broadcasts);
        drop(files);
        drop(holds);
        drop(prepared);
        drop(flags);
        drop(inodes);
        drop(master);
        drop(slots);
    }
}

impl State {
    /// The cells of the shared words, and the state before the script's first event over them: its
    /// files are as it declares them. Nothing is lent.
    ///
    /// # Errors
    ///
    /// `NoMemory` if an allocation of the cells, of the slots, of room for the flags of the
    /// processes or of copies of the files fails.
    pub fn new(alloc: Global, script: &Script) -> Result<(Cells, State), NoMemory>
        ensures state { IfOk result (λ made. made.1.state ≡ opening script.now) }
        ensures own { IfOk result (λ made. made.1.words.id ≡ made.0) }
        ensures out { IfOk result (λ made. made.1.words.out ≡ []) }
    {
        let (cells, master) = make(alloc)?;
        let state = State::over(alloc, script, master)?;
        Ok((cells, state))
    }

    /// The state before the script's first event, over these words.
    fn over(alloc: Global, script: &Script, master: Master) -> Result<State, NoMemory>
        ensures state { IfOk result (λ state. state.state ≡ opening script.now) }
        ensures own { IfOk result (λ state. state.words.id ≡ master.id) }
        ensures out { IfOk result (λ state. state.words.out ≡ master.loans) }
    {
        let slots = Slots::new(alloc)?;
        let flags = DumpableFlags::new(alloc)?;
        let inodes = declared_files(alloc, script)?;
        Ok(State {
            tasks: Procs::new(alloc),
            broadcasts: Broadcasts::new(alloc),
            files: Files::new(alloc),
            holds: Holds::new(alloc),
            prepared: Preparing::new(alloc),
            flags,
            inodes,
            master,
            slots,
            alloc,
        })
    }

    /// Makes one event of a line of the script, and answers it. Nothing is lent under a label that
    /// the event names.
    ///
    /// # Errors
    ///
    /// `NoMemory` if an allocation of a credential, of a list or of room for what is entered fails:
    /// the state is as it was.
    // Called for each event of a run, from one place of it.
    #[inline(always)]
    pub fn step(
        &mut self,
        cells: &Cells,
        script: &Script,
        line: u32,
        event: &Event,
    ) -> Result<Answer, NoMemory>
        requires own { self.old.words.id ≡ cells.now }
        requires out { AreOut self.old.state self.old.words.out }
        requires home { AreHome event.now self.old.words.out }
        requires kind { IsEventOf (length script.now.files) script.now.namespaces event.now }
        requires sound { IsSound self.old.state }
        ensures ok { IfOk result (λ answer.
            GivesLike self.old.state (done script.now self.old.state line event.now) answer
            self.new.state) }
        ensures err { OnErr result (self.new ≡ self.old) }
        ensures words { self.new.words ≡ self.old.words }
    {
        match event {
            Event::Ask { label, query } => self.ask(cells, *label, *query),
            Event::Take { label, task, side } => self.take(*label, *task, *side),
            Event::Release { label } => Ok(self.release(*label)),
            Event::Prepare { label, task, hold } => self.prepare(cells, *label, *task, *hold),
            Event::Commit { label } => self.commit(cells, *label),
            Event::Begin { task, call } => self.begin(cells, line, *task, call),
            Event::Act { broadcast } => self.act(cells, *broadcast),
            _ => self.step_any(cells, script, line, event),
        }
    }

    /// Makes any event. `step` makes the most frequent ones without it.
    ///
    /// # Errors
    ///
    /// As `step` has them.
    // Not inlined: `step` would clear the room for what an arm makes and passes at each event.
    #[inline(never)]
    fn step_any(
        &mut self,
        cells: &Cells,
        script: &Script,
        line: u32,
        event: &Event,
    ) -> Result<Answer, NoMemory>
        requires own { self.old.words.id ≡ cells.now }
        requires out { AreOut self.old.state self.old.words.out }
        requires home { AreHome event.now self.old.words.out }
        requires kind { IsEventOf (length script.now.files) script.now.namespaces event.now }
        requires sound { IsSound self.old.state }
        ensures ok { IfOk result (λ answer.
            GivesLike self.old.state (done script.now self.old.state line event.now) answer
            self.new.state) }
        ensures err { OnErr result (self.new ≡ self.old) }
        ensures words { self.new.words ≡ self.old.words }
    {
        match event {
            Event::Take { label, task, side } => self.take(*label, *task, *side),
            Event::TakeFile { label, fd } => self.take_file(*label, *fd),
            Event::Release { label } => Ok(self.release(*label)),
            Event::Ask { label, query } => self.ask(cells, *label, *query),
            Event::Prepare { label, task, hold } => self.prepare(cells, *label, *task, *hold),
            Event::Alter { label, change } => self.alter(cells, script, *label, *change),
            Event::Commit { label } => self.commit(cells, *label),
            Event::Abort { label } => Ok(self.abort(*label)),
            Event::Override { task, label } => self.override_with(*task, *label),
            Event::Revert { task } => Ok(self.revert(*task)),
            Event::Begin { task, call } => self.begin(cells, line, *task, call),
            Event::Act { broadcast } => self.act(cells, *broadcast),
            Event::Raw { task, call } => self.raw(cells, *task, call),
            Event::Init {
                task,
                process,
                user,
                group,
                ns,
            } => {
                let root = root_of(script, *ns);
                self.init(cells, *task, *process, *user, *group, *ns, root)
            }
            Event::Spawn { task, child } => self.spawn(*task, *child),
            Event::Fork {
                task,
                child,
                process,
            } => self.fork(*task, *child, *process),
            Event::Exit { task } => self.exit(*task),
            Event::Signal {
                from,
                hold,
                to,
                target,
            } => Ok(self.signal(cells, *from, *hold, *to, *target)),
            Event::Ptrace {
                from,
                hold,
                to,
                target,
                mode,
            } => Ok(self.trace(cells, script, *from, *hold, *to, *target, *mode)),
            Event::Dumpable { task, value } => Ok(self.set_dumpable(*task, *value)),
            Event::Dumped { task } => Ok(self.dumped(*task)),
            Event::OpenFile {
                hold,
                file,
                want,
                fd,
            } => self.open(cells, *hold, *file, *want, *fd),
            Event::CloseFile { fd } => Ok(self.close_file(*fd)),
            Event::Chown {
                hold,
                file,
                owner,
                group,
            } => self.chown(cells, *hold, *file, *owner, *group),
            Event::Chmod { hold, file, mode } => self.chmod(cells, *hold, *file, *mode),
            Event::SetAttr { hold, file, attr } => self.set_attr(cells, *hold, *file, attr),
            Event::Stat { hold, file } => Ok(self.stat(*hold, *file)),
            Event::Sweep => Ok(self.sweep()),
        }
    }

    /// How many references there are to credentials in the slot, those that were given up since the
    /// last sweep among them.
    pub fn uses(&self, slot: u32) -> u64
        ensures { result ≡ model.uses self.now.state slot }
    {
        self.slots.uses(slot)
    }

    /// Each credential that something refers to stands in the words of its slot.
    pub fn check_in_place(&self)
        ensures { AreInPlace self.now.state self.now.places }
    {
        // The table is read for its invariant alone.
        let _ = self.slots.next_number();
    }

    /// The script's files as they stand, by their places.
    #[inline(always)]
    pub fn inodes(&self) -> &FileTable
        ensures { result.now ≡ self.now.state.inodes }
    {
        &self.inodes
    }

    /// The sealed credential of this number.
    fn sealed_at(&self, number: u64) -> Option<NumberedSlot>
        ensures { option_map (seen_in self.now.state.creds) result
            ≡ numbered self.now.state.creds number }
    {
        sealed_at(&self.slots, number)
    }

    /// The credential that was found, read from the words of its slot. Something refers to it.
    ///
    /// # Errors
    ///
    /// `NoMemory` if the allocation of its groups fails.
    fn read(&mut self, cells: &Cells, found: NumberedSlot) -> Result<Cred, NoMemory>
        requires own { self.old.words.id ≡ cells.now }
        requires found { numbered self.old.state.creds found.number
            ≡ Some (seen_in self.old.state.creds found) }
        requires used { IsInUse self.old.state found.number }
        ensures cred { IfOk result (λ cred. cred ≡ cred_under self.old.state.creds found.number) }
        ensures same { self.new ≡ self.old }
    {
        self.master.read_slot(self.alloc, cells, found.slot)
    }

    /// The current credential of a task.
    #[inline(always)]
    fn current(&self, task: u32) -> Option<NumberedSlot>
        ensures { option_map (seen_in self.now.state.creds) result
            ≡ current_of self.now.state task }
    {
        let number = self.tasks.current(task)?;
        self.sealed_at(number)
    }

    /// The credential that a task acts with, or the one that it is acted on by.
    fn credential(&self, task: u32, side: Side) -> Option<NumberedSlot>
        ensures { option_map (seen_in self.now.state.creds) result
            ≡ credential_of self.now.state task side }
    {
        let number = match side {
            Side::Subjective => self.tasks.subjective(task)?,
            Side::Objective => self.tasks.current(task)?,
        };
        self.sealed_at(number)
    }

    /// The credential that a label holds.
    #[inline(always)]
    fn held(&self, label: u32) -> Option<NumberedSlot>
        ensures { option_map (seen_in self.now.state.creds) result ≡ held_by self.now.state label }
    {
        let number = self.holds.get(label)?;
        self.sealed_at(number)
    }

    /// Whether a hold or a prepared label has this label.
    #[inline(always)]
    fn has_label(&self, label: u32) -> bool
        ensures { result
            ≡ (is_some (hold_of self.now.state label)
            || is_some (prepared_of self.now.state label)) }
    {
        self.holds.get(label).is_some() || self.prepared.get(label).is_some()
    }

    /// Drops all references that were given up since the last sweep.
    fn sweep(&mut self) -> Answer
        ensures made { (script : Declared) (line : ℕ)
            → Gives self.old.state (done script self.old.state line Sweep) result self.new.state }
        ensures words { self.new.words ≡ self.old.words }
    {
        self.slots.sweep();
        Answer::Done
    }
}
