//! The state of the machine.
ghost use Rattle.std.specs.Prelude.{◌≡◌, ◌||◌, false, is_some, length, IfOk, MatchOption, Ok};
ghost use Rattle.std.specs.Prelude.{Err};
ghost use Rattle.std.specs.Option.{option_map, option_map_or};
ghost use Rattle.cred_event.specs.declared.answer.Answer.TheVariants.{Overridden};
ghost use Rattle.cred_model.specs.State.{opening, credential_of, held_by, hold_of, numbered};
ghost use Rattle.cred_model.specs.State.{prepared_of};
ghost use Rattle.cred_model.specs.Dumpable.{differs};
ghost use Rattle.cred_model.specs.Like.{IsLike};
ghost use Rattle.cred_model.specs.Moves.{not_overridden};
ghost use Rattle.cred_plain.specs.Creds.{seen_numbered};
ghost use Rattle.cred_machine.specs.Kept.{KeepsReferred};

use cred_declared::{FileTable, declared_files};
use cred_dumpable::{DumpableFlags, differs};
use cred_event::Side;
use cred_ids::NoMemory;
use cred_plain::labels::{hold_of, prepared_of};
use cred_plain::{Broadcast, Creds, Hold, Numbered, OpenFile, Prepared, References, Task, Tasks};
use cred_record::Cred;
use cred_script::Script;
use std::alloc::Global;
use std::marker::Model;

/// The live tasks, the open broadcasts, the open files, the holds, the prepared labels, the numbers
/// that were given up since the last sweep, which processes are dumpable, the files that the script
/// declares as they stand, and the credentials by their numbers.
#[derive(Drop)]
pub struct State {
    pub(crate) tasks: Tasks,
    pub(crate) broadcasts: Vec<Broadcast>,
    pub(crate) files: Vec<OpenFile>,
    pub(crate) holds: Vec<Hold>,
    pub(crate) prepared: Vec<Prepared>,
    pub(crate) deferred: Vec<u64>,
    pub(crate) flags: DumpableFlags,
    pub(crate) inodes: FileTable,
    pub(crate) creds: Creds,
    pub(crate) alloc: Global,
}

impl Model for State {
    ghost use Rattle.cred_model.specs.State.{State};

    ghost Value = { State };

    ghost view = { λ s. record {
      tasks = s.tasks;
      broadcasts = s.broadcasts.items;
      files = s.files.items;
      holds = s.holds.items;
      prepared = s.prepared.items;
      deferred = s.deferred.items;
      dumpable = s.flags;
      inodes = s.inodes;
      creds = s.creds.list;
    } };
}

impl State {
    /// The state before a script's first event: its files are as it declares them.
    ///
    /// # Errors
    ///
    /// `NoMemory` if an allocation fails.
    pub fn new(alloc: Global, script: &Script) -> Result<State, NoMemory>
        ensures { IfOk result (λ state. state ≡ opening script.now) }
    {
        Ok(State {
            tasks: Tasks::new(alloc),
            broadcasts: Vec::new(alloc),
            files: Vec::new(alloc),
            holds: Vec::new(alloc),
            prepared: Vec::new(alloc),
            deferred: Vec::new(alloc),
            flags: DumpableFlags::new(alloc)?,
            inodes: declared_files(alloc, script)?,
            creds: Creds::new(alloc)?,
            alloc,
        })
    }

    /// The credential that a task acts with, or the one that it is acted on by.
    pub(crate) fn credential(&self, task: u32, side: Side) -> Option<Numbered<'_>>
        ensures { option_map seen_numbered result ≡ credential_of self.now task side }
    {
        let owner = self.tasks.get(task)?;
        let number = match side {
            Side::Subjective => owner.acting(),
            Side::Objective => owner.current,
        };
        self.creds.get(number)
    }

    /// The credential that a label holds.
    pub(crate) fn held(&self, label: u32) -> Option<Numbered<'_>>
        ensures { option_map seen_numbered result ≡ held_by self.now label }
    {
        let hold = hold_of(&self.holds, label)?;
        self.creds.get(hold.number)
    }

    /// Whether a hold or a prepared label has this label.
    pub(crate) fn has_label(&self, label: u32) -> bool
        ensures { result
            ≡ (is_some (hold_of self.now label) || is_some (prepared_of self.now label)) }
    {
        hold_of(&self.holds, label).is_some() || prepared_of(&self.prepared, label).is_some()
    }

    /// How many references were given up since the last sweep.
    pub(crate) fn given_up(&self) -> usize
        ensures { result ≡ length self.now.deferred }
    {
        self.deferred.len()
    }

    /// Forgets the credentials that nothing refers to any more.
    fn forget(&mut self)
        ensures like { IsLike self.new self.old }
        ensures kept { KeepsReferred self.new }
    {
        let references = References {
            tasks: self.tasks.items(),
            files: &self.files,
            holds: &self.holds,
            prepared: &self.prepared,
            deferred: &self.deferred,
        };
        self.creds.forget(&references);
    }

    /// The same, where a sweep may have left credentials that nothing refers to.
    pub(crate) fn forget_if(&mut self, swept: bool)
        requires { swept ≡ false → KeepsReferred self.old }
        ensures like { IsLike self.new self.old }
        ensures kept { KeepsReferred self.new }
    {
        if swept {
            self.forget();
        }
    }
}

/// Whether an effective or a filesystem id of this credential is another one than in the sealed one
/// of this number.
pub fn differs_from(creds: &Creds, number: u64, new: &Cred) -> bool
    ensures { result ≡ option_map_or (λ old. differs old.cred new.now)
        (numbered creds.now.list number) false }
{
    match creds.get(number) {
        Some(old) => differs(old.cred, new),
        None => false,
    }
}

/// How many overrides a task has, where it has some: then its current credential can't be replaced
/// or shared, and it can't end.
pub fn overridden(owner: &Task) -> Option<u32>
    ensures { MatchOption result
        (not_overridden owner.now ≡ Ok tt)
        (λ depth. not_overridden owner.now ≡ Err (Overridden depth)) }
{
    match owner.depth() {
        0 => None,
        depth => Some(depth),
    }
}
