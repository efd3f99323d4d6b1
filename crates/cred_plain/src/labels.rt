//! The holds and the prepared labels.
ghost use Rattle.std.specs.Prelude.{◌≡◌, ◌≢◌, ◌==◌, find, position, Some};
ghost use Rattle.std.specs.List.{AllPairs};
ghost use Rattle.std.specs.Option.{option_and_then, option_map};
ghost use Rattle.cred_model.specs.Moves.{with_change};
ghost use Rattle.cred_model.specs.LabelEvents as model;

use cred_event::Change;
use cred_record::{Cred, Gains};
use std::marker::Model;

/// A hold keeps the number of a credential under a label.
#[derive(Drop)]
pub struct Hold {
    pub label: u32,
    pub number: u64,
}

impl Model for Hold {
    ghost use Rattle.cred_model.specs.State.{Hold};

    ghost Value = { Hold };

    ghost view = { λ h. record { label = h.label; number = h.number } };
}

/// The last change of a prepared credential, what it made of the base, and what that one gains.
#[derive(Drop)]
pub struct Changed {
    pub change: Change,
    pub cred: Cred,
    pub gains: Gains,
}

impl Model for Changed {
    ghost use Rattle.cred_model.specs.State.{Changed};

    ghost Value = { Changed };

    ghost view = { λ c. record { change = c.change; cred = c.cred; gains = c.gains } };
}

/// A label that prepares a credential: the task that it is for, the number of the credential that
/// it is based on, the slot that is kept for it, and what the base has become, once it was changed.
#[derive(Drop)]
pub struct Prepared {
    pub label: u32,
    pub task: u32,
    pub base: u64,
    pub slot: u32,
    pub changed: Option<Changed>,
}

impl Model for Prepared {
    ghost use Rattle.cred_model.specs.State.{Prepared};

    ghost Value = { Prepared };

    ghost view = { λ p. record {
      label = p.label;
      task = p.task;
      base = p.base;
      slot = p.slot;
      changed = p.changed;
    } };
}

impl Prepared {
    /// What it was changed by last, if that may become its task's current credential: what
    /// access(2) asks by never does.
    pub fn for_task(&self) -> Option<&Changed>
        ensures { option_map (λ last. last.now) result
            ≡ option_and_then model.for_task self.now.changed }
    {
        let last = self.changed.as_ref()?;
        if is_access(last.change) {
            None
        } else {
            Some(last)
        }
    }

    /// What it was changed by last, if that is what this task asks by in access(2).
    pub fn for_access(&self, task: u32) -> Option<&Changed>
        ensures { option_map (λ last. last.now) result ≡ model.for_access task self.now }
    {
        let last = self.changed.as_ref()?;
        if self.task == task && is_access(last.change) {
            Some(last)
        } else {
            None
        }
    }

    /// Notes what its base has become.
    fn change(&mut self, to: Changed)
        ensures { self.new ≡ record self.old { changed = Some to } }
    {
        self.changed = Some(to);
    }
}

/// Whether the change makes what access(2) asks by.
fn is_access(change: Change) -> bool
    ensures { result ≡ model.is_access change }
{
    matches!(change, Change::Access)
}

/// The hold of a label.
pub fn hold_of(holds: &[Hold], label: u32) -> Option<&Hold>
    ensures { option_map (λ h. h.now) result ≡ find (λ h. h.label == label) holds.now }
{
    holds.iter().find(|hold| hold.label == label)
}

/// Where the hold of a label stands.
pub fn hold_place(holds: &[Hold], label: u32) -> Option<usize>
    ensures { result ≡ position (λ h. h.label == label) holds.now }
{
    holds.iter().position(|hold| hold.label == label)
}

/// What a label prepares.
pub fn prepared_of(prepared: &[Prepared], label: u32) -> Option<&Prepared>
    ensures { option_map (λ p. p.now) result ≡ find (λ p. p.label == label) prepared.now }
{
    prepared
        .iter()
        .find(|preparation| preparation.label == label)
}

/// Where the label stands among those that prepare.
pub fn prepared_place(prepared: &[Prepared], label: u32) -> Option<usize>
    ensures { result ≡ position (λ p. p.label == label) prepared.now }
{
    prepared
        .iter()
        .position(|preparation| preparation.label == label)
}

/// Notes what the base of a label has become.
pub fn change_at(prepared: &mut Vec<Prepared>, label: u32, to: Changed)
    ensures { AllPairs (λ a b. a.label ≢ b.label) prepared.old.items
        → prepared.new.items ≡ with_change prepared.old.items label to }
{
    let Some(place) = prepared_place(prepared, label) else {
        return;
    };
    prepared[place].change(to);
}
