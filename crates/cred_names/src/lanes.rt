//! The lanes of a script: the one that the lines belong to, and which has which tasks and labels.
ghost use Rattle.std.specs.Prelude.{◌≡◌, ◌∷◌, ◌++◌, [], None, OnErr, OnOk};
ghost use Rattle.std.specs.List.{cons_option};
ghost use Rattle.cred_names.specs.Labels.{labels};
ghost use Rattle.cred_names.specs.Owners as spec;

use crate::labels::labels_of;
use cred_event::Content;
use cred_ids::NoMemory;
use indexmap::IndexMap;
use std::alloc::Global;
use std::marker::Model;

/// Tasks, or labels, by their numbers, each with the lane whose line was the first to name it.
#[derive(Drop)]
struct Owners {
    by_number: IndexMap<u32, u32>,
}

impl Model for Owners {
    ghost use Rattle.cred_names.specs.Owners as spec;

    ghost Value = { spec.Owners };

    ghost view = { λ o. o.by_number.entries };
}

impl Owners {
    /// Nothing has an owner.
    fn new(alloc: Global) -> Owners
        ensures { result ≡ [] }
    {
        Owners {
            by_number: IndexMap::new(alloc),
        }
    }

    /// The lane whose lines have named it; none where none has.
    fn owner(&self, number: u32) -> Option<u32>
        ensures { result ≡ spec.owner_of self.now number }
    {
        self.by_number.get(&number).copied()
    }

    /// Whether no line of another lane has named it, if there is one.
    #[inline(never)]
    fn is_free(&self, lane: u32, number: Option<u32>) -> bool
        ensures { result ≡ spec.are_free self.now lane (cons_option number []) }
    {
        match number {
            Some(number) => match self.owner(number) {
                Some(owner) => owner == lane,
                None => true,
            },
            None => true,
        }
    }

    /// A line of this lane names it, if there is one. If an allocation fails, nothing changes.
    #[inline(never)]
    fn name(&mut self, lane: u32, number: Option<u32>) -> Result<(), NoMemory>
        ensures ok { OnOk result
            (self.new ≡ spec.with_owners self.old lane (cons_option number [])) }
        ensures err { OnErr result (self.new ≡ self.old) }
        ensures keeps { spec.KeepsOwners self.old self.new }
    {
        match number {
            Some(number) if self.owner(number).is_none() => self.add(lane, number),
            _ => Ok(()),
        }
    }

    /// It is named for the first time. If an allocation fails, nothing changes.
    fn add(&mut self, lane: u32, number: u32) -> Result<(), NoMemory>
        requires { spec.owner_of self.old number ≡ None }
        ensures ok { OnOk result (self.new ≡ self.old ++ (number, lane) ∷ []) }
        ensures err { OnErr result (self.new ≡ self.old) }
        ensures keeps { spec.KeepsOwners self.old self.new }
    {
        self.by_number.insert(number, lane)?;
        Ok(())
    }
}

/// The lane that the lines belong to now, from 1 on or 0 for the setup, and which lane has which
/// tasks and labels. The setup has none.
#[derive(Drop)]
pub struct Lanes {
    current: u32,
    tasks: Owners,
    labels: Owners,
}

impl Model for Lanes {
    ghost use Rattle.cred_names.specs.Owners as spec;

    ghost Value = { spec.Lanes };

    ghost view = { λ l. record { current = l.current; tasks = l.tasks; labels = l.labels } };
}

impl Lanes {
    /// Before the first line.
    pub fn new(alloc: Global) -> Lanes
        ensures { result ≡ spec.no_lanes }
    {
        Lanes {
            current: 0,
            tasks: Owners::new(alloc),
            labels: Owners::new(alloc),
        }
    }

    /// The lane that the lines belong to now; 0 is the setup.
    pub fn current(&self) -> u32
        ensures { result ≡ self.now.current }
    {
        self.current
    }

    /// From now on the lines belong to this lane.
    pub fn open(&mut self, number: u32)
        ensures { self.new ≡ record self.old { current = number } }
    {
        self.current = number;
    }

    /// Whether a line may stand now that holds this, and by which this task acts: outside the setup
    /// no line of another lane has named the task, or a label of the line.
    // Most lines are the setup's, and need no call, here and in `name`.
    #[inline(always)]
    pub fn may_name(&self, by: Option<u32>, content: &Content) -> bool
        ensures { result ≡ spec.may_name self.now by content.now }
    {
        self.current == 0 || self.tasks.is_free(self.current, by) && self.are_free(content)
    }

    /// Whether no line of another lane has named the labels of the line.
    #[inline(never)]
    fn are_free(&self, content: &Content) -> bool
        ensures { result ≡ spec.are_free self.now.labels self.now.current (labels content.now) }
    {
        let (first, second) = labels_of(content);
        self.labels.is_free(self.current, first) && self.labels.is_free(self.current, second)
    }

    /// Such a line stands there: outside the setup the lane has the task and the labels from now
    /// on, where none had them.
    ///
    /// # Errors
    ///
    /// `NoMemory` where there is no memory to keep one of them. Each lane keeps what it had, and
    /// this lane may have a part of them.
    #[inline(always)]
    pub fn name(&mut self, by: Option<u32>, content: &Content) -> Result<(), NoMemory>
        ensures ok { OnOk result (self.new ≡ spec.naming self.old by content.now) }
        ensures keeps { spec.KeepsLanes self.old self.new }
    {
        if self.current == 0 {
            return Ok(());
        }
        let (first, second) = labels_of(content);
        self.tasks.name(self.current, by)?;
        self.labels.name(self.current, first)?;
        self.labels.name(self.current, second)
    }
}
