//! Tasks, broadcasts, prepared labels and references as plain lists, in which all is found by
//! search.
use cred_ids::{NoMemory, limits};
use std::alloc::Global;

/// How many slots there are.
pub(crate) const SLOTS: u32 = limits::SLOTS as u32;

/// What refers to a credential. A task's overrides are numbered from 1, the newest last; a prepared
/// label refers to its base; and what was given up still refers to its credential until the sweep.
#[derive(Clone, Copy, PartialEq, Eq)]
pub(crate) enum Owner {
    Task(u32),
    Override { task: u32, depth: usize },
    File(u32),
    Hold(u32),
    Prepared(u32),
    GivenUp,
}

impl Owner {
    /// It goes with the task.
    fn is_of(self, task: u32) -> bool {
        match self {
            Owner::Task(own) => own == task,
            Owner::Override { task: own, .. } => own == task,
            _ => false,
        }
    }

    /// It is an override of the task.
    fn overrides(self, task: u32) -> bool {
        match self {
            Owner::Override { task: own, .. } => own == task,
            _ => false,
        }
    }
}

/// A reference to the credential of this number.
#[derive(Clone, Copy)]
struct Reference {
    owner: Owner,
    number: u64,
}

/// A live task.
#[derive(Clone, Copy)]
pub(crate) struct LiveTask {
    pub(crate) number: u32,
    pub(crate) process: u32,
}

/// What a prepared credential was last changed for.
#[derive(Clone, Copy, PartialEq, Eq)]
pub(crate) enum Purpose {
    Commit,
    Access,
}

/// A prepared label: its task, the slot that it keeps, and what it was last changed for.
#[derive(Clone, Copy)]
pub(crate) struct PreparedLabel {
    pub(crate) label: u32,
    pub(crate) task: u32,
    pub(crate) slot: u32,
    pub(crate) purpose: Option<Purpose>,
}

/// A thread that waits for its step in a broadcast, which is open as long as a thread waits in it.
#[derive(Clone, Copy)]
pub(crate) struct Waiting {
    pub(crate) broadcast: u32,
    pub(crate) process: u32,
    pub(crate) caller: u32,
    pub(crate) task: u32,
}

/// The lists, and the slot of each number that was ever sealed.
#[derive(Drop)]
pub(crate) struct Lists {
    pub(crate) alloc: Global,
    pub(crate) tasks: Vec<LiveTask>,
    pub(crate) waiting: Vec<Waiting>,
    pub(crate) prepared: Vec<PreparedLabel>,
    references: Vec<Reference>,
    slots: Vec<u32>,
}

impl Lists {
    pub(crate) fn new(alloc: Global) -> Lists {
        Lists {
            alloc,
            tasks: Vec::new(alloc),
            waiting: Vec::new(alloc),
            prepared: Vec::new(alloc),
            references: Vec::new(alloc),
            slots: Vec::new(alloc),
        }
    }

    /// The number of the credential that this refers to.
    pub(crate) fn number_of(&self, owner: Owner) -> Option<u64> {
        let found = self.references.iter().find(|own| own.owner == owner)?;
        Some(found.number)
    }

    pub(crate) fn has(&self, owner: Owner) -> bool {
        self.number_of(owner).is_some()
    }

    /// How many overrides the task has.
    pub(crate) fn depth(&self, task: u32) -> usize {
        self.references
            .iter()
            .filter(|own| own.owner.overrides(task))
            .count()
    }

    /// The number of the credential that a task acts with.
    pub(crate) fn acts_with(&self, task: u32) -> Option<u64> {
        match self.depth(task) {
            0 => self.number_of(Owner::Task(task)),
            depth => self.number_of(Owner::Override { task, depth }),
        }
    }

    pub(crate) fn refers(&mut self, owner: Owner, number: u64) -> Result<(), NoMemory> {
        self.references.push(Reference { owner, number })?;
        Ok(())
    }

    /// What this refers to is given up.
    pub(crate) fn gives_up(&mut self, owner: Owner) {
        for own in self.references.iter_mut() {
            if own.owner == owner {
                own.owner = Owner::GivenUp;
            }
        }
    }

    /// All that was given up is dropped.
    pub(crate) fn sweep(&mut self) {
        self.references.retain(|own| own.owner != Owner::GivenUp);
    }

    /// The task ends. What it refers to is given up, and it waits no longer.
    pub(crate) fn end(&mut self, task: u32) {
        for own in self.references.iter_mut() {
            if own.owner.is_of(task) {
                own.owner = Owner::GivenUp;
            }
        }
        self.tasks.retain(|own| own.number != task);
        self.waiting.retain(|own| own.task != task);
    }

    pub(crate) fn process_of(&self, task: u32) -> Option<u32> {
        let own = self.tasks.iter().find(|own| own.number == task)?;
        Some(own.process)
    }

    /// The other threads of a task's process.
    pub(crate) fn others(&self, task: u32) -> Result<Vec<u32>, NoMemory> {
        let mut others = Vec::new(self.alloc);
        let Some(process) = self.process_of(task) else {
            return Ok(others);
        };
        for other in &self.tasks {
            if other.process == process && other.number != task {
                others.push(other.number)?;
            }
        }
        Ok(others)
    }

    pub(crate) fn label(&self, label: u32) -> Option<PreparedLabel> {
        self.prepared.iter().find(|own| own.label == label).copied()
    }

    /// A prepared label goes, and its base is given up.
    pub(crate) fn drop_label(&mut self, label: u32) {
        self.gives_up(Owner::Prepared(label));
        self.prepared.retain(|own| own.label != label);
    }

    /// The task waits for its step in a broadcast.
    pub(crate) fn waits(&self, task: u32) -> bool {
        self.waiting.iter().any(|own| own.task == task)
    }

    /// The broadcast of the task's process is dropped.
    pub(crate) fn drop_broadcast(&mut self, task: u32) {
        if let Some(process) = self.process_of(task) {
            self.waiting.retain(|own| own.process != process);
        }
    }

    /// The slots of all references, each as often as something refers to a number in it.
    pub(crate) fn used(&self) -> Result<Vec<u32>, NoMemory> {
        let mut used = Vec::new(self.alloc);
        for own in &self.references {
            if let Some(slot) = self.slots.get(own.number as usize) {
                used.push(*slot)?;
            }
        }
        Ok(used)
    }

    /// The least slot that nothing refers to and no label keeps.
    fn free(&self) -> Result<Option<u32>, NoMemory> {
        let mut live = self.used()?;
        for own in &self.prepared {
            live.push(own.slot)?;
        }
        Ok((0..SLOTS).find(|slot| !live.contains(slot)))
    }

    /// The slot that a new credential takes, after a sweep where none is free.
    pub(crate) fn claimed(&mut self) -> Result<Option<u32>, NoMemory> {
        if let Some(slot) = self.free()? {
            return Ok(Some(slot));
        }
        self.sweep();
        self.free()
    }

    /// The number was sealed in this slot.
    pub(crate) fn was_sealed_in(&self, number: u64, slot: u32) -> bool {
        self.slots.get(number as usize).copied() == Some(slot)
    }

    /// A credential is sealed in this slot. Answers whether this is its number.
    pub(crate) fn seals(&mut self, number: u64, slot: u32) -> Result<bool, NoMemory> {
        let is_next = self.slots.len() as u64 == number;
        self.slots.push(slot)?;
        Ok(is_next)
    }

    /// A task's current credential is replaced: the old one is given up.
    pub(crate) fn replace(&mut self, task: u32, number: u64) -> Result<(), NoMemory> {
        self.gives_up(Owner::Task(task));
        self.refers(Owner::Task(task), number)
    }
}
