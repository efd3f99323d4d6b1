//! The prepared labels.
ghost use Rattle.std.specs.Prelude.{◌≡◌, ◌==◌, [], ◌∷◌, ◌++◌, find, is_some, length, None, IsSome};
ghost use Rattle.std.specs.Prelude.{MatchOption, OnOk, OnErr};
ghost use Rattle.std.specs.Option.{option_and_then, option_map};
ghost use Rattle.cred_model.specs.Moves.{with_change};
ghost use Rattle.cred_model.specs.LabelEvents as model;
ghost use Rattle.cred_tables.specs.Prepared.{prepared_as, prepared_place, changed_of, IsReady};
ghost use Rattle.cred_tables.specs.Prepared.{EndsLabel};
ghost use Rattle.cred_tables.specs.Prepared.{GivesUpChanged};

use crate::labelled::Labelled;
use cred_event::Change;
use cred_ids::NoMemory;
use cred_record::{Cred, Gains};
use std::alloc::Global;
use std::marker::Model;

/// The last change of a prepared credential, what it made of the base, and what that one gains.
#[derive(Drop)]
pub struct Changed {
    pub change: Change,
    pub cred: Cred,
    pub gains: Gains,
}

impl Model for Changed {
    ghost use Rattle.cred_model.specs.State as model;

    ghost Value = { model.Changed };

    ghost view = { λ c. record { change = c.change; cred = c.cred; gains = c.gains } };
}

/// What is prepared under a label: the task that it is for, the number of the credential that it is
/// based on, the slot that is kept for it, and what the base has become, once it was changed.
#[derive(Drop)]
pub struct Preparation {
    pub task: u32,
    pub base: u64,
    pub slot: u32,
    pub changed: Option<Changed>,
}

/// Which task a label is for that may be committed, the number of the credential that it is based
/// on, and what it was changed by last.
#[derive(Clone, Copy)]
pub struct Ready {
    pub task: u32,
    pub base: u64,
    pub change: Change,
}

/// The number of the credential that a label was based on, and the slot that was kept for it.
#[derive(Clone, Copy)]
pub struct GivenUp {
    pub base: u64,
    pub slot: u32,
}

/// What is prepared under each label, in the order in which the labels began.
#[derive(Drop)]
pub struct Preparing {
    entries: Labelled<Preparation>,
}

impl Model for Preparing {
    ghost use Rattle.std.specs.Prelude.{List};
    ghost use Rattle.cred_model.specs.State.{Prepared};
    ghost use Rattle.cred_tables.specs.Prepared.{all_prepared};

    ghost Value = { List Prepared };

    ghost view = { λ p. all_prepared p.entries };
}

impl Preparing {
    /// No label prepares anything.
    pub fn new(alloc: Global) -> Preparing
        ensures { result ≡ [] }
    {
        Preparing {
            entries: Labelled::new(alloc),
        }
    }

    /// How many labels there are.
    pub fn len(&self) -> usize
        ensures { result ≡ length self.now }
    {
        self.entries.len()
    }

    /// What is prepared under a label. `None` where it isn't prepared.
    #[inline(always)]
    pub fn get(&self, label: u32) -> Option<&Preparation>
        ensures { option_map (λ p. prepared_as label p.now) result
            ≡ find (λ p. p.label == label) self.now }
    {
        self.entries.get(label)
    }

    /// A label that may be committed. `None` where the label isn't prepared, was never changed, or
    /// was changed last for access(2).
    #[inline(always)]
    pub fn ready(&self, label: u32) -> Option<Ready>
        ensures { MatchOption result
            (option_and_then model.for_task (changed_of self.now label) ≡ None)
            (λ ready. IsReady self.now label ready.task ready.base ready.change) }
    {
        let preparation = self.get(label)?;
        let last = preparation.changed.as_ref()?;
        if is_access(last.change) {
            return None;
        }
        Some(Ready {
            task: preparation.task,
            base: preparation.base,
            change: last.change,
        })
    }

    /// Whether the label is prepared for this task, and was changed last for access(2).
    pub fn is_for_access(&self, label: u32, task: u32) -> bool
        ensures { result ≡ is_some
            (option_and_then (model.for_access task) (find (λ p. p.label == label) self.now)) }
    {
        let Some(preparation) = self.get(label) else {
            return false;
        };
        match &preparation.changed {
            Some(last) => preparation.task == task && is_access(last.change),
            None => false,
        }
    }

    /// A label that wasn't prepared begins to prepare.
    ///
    /// # Errors
    ///
    /// `NoMemory` if an allocation fails: the labels are as they were.
    #[inline(always)]
    pub fn prepare(&mut self, label: u32, preparation: Preparation) -> Result<(), NoMemory>
        requires { find (λ p. p.label == label) self.old ≡ None }
        ensures ok { OnOk result (self.new ≡ self.old ++ prepared_as label preparation ∷ []) }
        ensures err { OnErr result (self.new ≡ self.old) }
    {
        self.entries.push(label, preparation)
    }

    /// The base of a label was changed to this: what an earlier change made of it is dropped. Where
    /// the label isn't prepared, nothing changes.
    #[inline(always)]
    pub fn change(&mut self, label: u32, to: Changed)
        ensures { self.new ≡ with_change self.old label to }
    {
        let Some(preparation) = self.entries.get(label) else {
            return;
        };
        let changed = Preparation {
            task: preparation.task,
            base: preparation.base,
            slot: preparation.slot,
            changed: Some(to),
        };
        self.entries.set(label, changed);
    }

    /// A label gives up what it prepared. `None` where it isn't prepared; then nothing changes.
    #[inline(always)]
    pub fn give_up(&mut self, label: u32) -> Option<GivenUp>
        ensures { MatchOption result
            ((prepared_place self.old label ≡ None) × (self.new ≡ self.old))
            (λ ended. EndsLabel self.old self.new label ended.base ended.slot) }
    {
        let Preparation { base, slot, .. } = self.entries.remove(label)?;
        Some(GivenUp { base, slot })
    }

    /// A label that was changed is done: it gives up its base and its slot, and what it prepared.
    #[inline(always)]
    pub fn finish(&mut self, label: u32) -> (GivenUp, Changed)
        requires { IsSome (changed_of self.old label) }
        ensures { GivesUpChanged self.old self.new label result.0.base result.0.slot result.1 }
    {
        // Both are there: the label was changed.
        let preparation = self.entries.remove(label).unwrap();
        let ended = GivenUp {
            base: preparation.base,
            slot: preparation.slot,
        };
        (ended, preparation.changed.unwrap())
    }
}

/// Whether the change makes what access(2) asks by.
fn is_access(change: Change) -> bool
    ensures { result ≡ model.is_access change }
{
    matches!(change, Change::Access)
}
