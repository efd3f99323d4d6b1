//! The holds, by their labels.
ghost use Rattle.std.specs.Prelude.{◌≡◌, ◌==◌, [], ◌∷◌, ◌++◌, find, length, None, MatchOption};
ghost use Rattle.std.specs.Prelude.{OnOk, OnErr};
ghost use Rattle.std.specs.Option.{option_map};
ghost use Rattle.cred_tables.specs.Holds.{hold_place, Releases};

use crate::labelled::Labelled;
use cred_ids::NoMemory;
use std::alloc::Global;
use std::marker::Model;

/// The number of a credential under each label, in the order in which the labels took hold.
#[derive(Drop)]
pub struct Holds {
    numbers: Labelled<u64>,
}

impl Model for Holds {
    ghost use Rattle.std.specs.Prelude.{List};
    ghost use Rattle.cred_model.specs.State.{Hold};
    ghost use Rattle.cred_tables.specs.Holds.{holds_of};

    ghost Value = { List Hold };

    ghost view = { λ h. holds_of h.numbers };
}

impl Holds {
    /// No hold.
    pub fn new(alloc: Global) -> Holds
        ensures { result ≡ [] }
    {
        Holds {
            numbers: Labelled::new(alloc),
        }
    }

    /// How many there are.
    pub fn len(&self) -> usize
        ensures { result ≡ length self.now }
    {
        self.numbers.len()
    }

    /// The number that a label holds.
    #[inline(always)]
    pub fn get(&self, label: u32) -> Option<u64>
        ensures { result ≡ option_map (λ h. h.number) (find (λ h. h.label == label) self.now) }
    {
        self.numbers.get(label).copied()
    }

    /// A label takes hold of a number.
    ///
    /// # Errors
    ///
    /// `NoMemory` if an allocation fails: the holds are as they were.
    #[inline(always)]
    pub fn take(&mut self, label: u32, number: u64) -> Result<(), NoMemory>
        requires { find (λ h. h.label == label) self.old ≡ None }
        ensures ok { OnOk result
            (self.new ≡ self.old ++ record { label = label; number = number } ∷ []) }
        ensures err { OnErr result (self.new ≡ self.old) }
    {
        self.numbers.push(label, number)
    }

    /// A label drops the number that it held. `None` where it held none, and then nothing changes.
    #[inline(always)]
    pub fn release(&mut self, label: u32) -> Option<u64>
        ensures { MatchOption result
            ((hold_place self.old label ≡ None) × (self.new ≡ self.old))
            (λ number. Releases self.old self.new label number) }
    {
        self.numbers.remove(label)
    }
}
