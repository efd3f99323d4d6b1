//! Values under labels.
ghost use Rattle.std.specs.Prelude.{◌≡◌, [], ◌∷◌, ◌++◌, length, nat_eq, None, OnOk, OnErr};
ghost use Rattle.std.specs.List.{IsDistinct};
ghost use Rattle.std.specs.Map.{keys_of, lookup, remove_entry, set_value};
ghost use Rattle.std.specs.Option.{option_copied};

use cred_ids::NoMemory;
use indexmap::IndexMap;
use std::alloc::Global;
use std::marker::Model;

/// Values under labels, in the order in which the labels came. The newest stands apart: a line
/// looks for its own label, which is the newest, and then nothing is hashed. Contracts see the
/// labels with their values. No label is there twice.
#[derive(Drop)]
pub struct Labelled<T> {
    older: IndexMap<u32, T>,
    newest: Option<(u32, T)>,
}

impl<T> Model for Labelled<T> {
    ghost use Rattle.std.specs.Prelude.{List, ℕ};
    ghost use Rattle.cred_tables.specs.Labelled.{with_newest, IsOnce};

    ghost Value = { List (ℕ × T) };

    ghost view = { λ l. with_newest l.older.entries l.newest };

    ghost invariant = { λ l. IsOnce l.older.entries l.newest };
}

impl<T: Drop> Labelled<T> {
    /// No label.
    pub fn new(alloc: Global) -> Labelled<T>
        ensures { result ≡ [] }
    {
        Labelled {
            older: IndexMap::new(alloc),
            newest: None,
        }
    }

    /// How many labels there are.
    #[inline(always)]
    pub fn len(&self) -> usize
        ensures { result ≡ length self.now }
    {
        match &self.newest {
            Some(_) => self.older.len() + 1,
            None => self.older.len(),
        }
    }

    /// The value under a label. `None` where the label isn't there.
    #[inline(always)]
    pub fn get(&self, label: u32) -> Option<&T>
        ensures { option_copied result ≡ lookup (nat_eq label) self.now }
    {
        match &self.newest {
            Some((own, value)) if *own == label => Some(value),
            _ if self.older.is_empty() => None,
            _ => self.older.get(&label),
        }
    }

    /// A label that wasn't there comes with its value. If an allocation fails, nothing changes.
    #[inline(always)]
    pub fn push(&mut self, label: u32, value: T) -> Result<(), NoMemory>
        requires { lookup (nat_eq label) self.old ≡ None }
        ensures ok { OnOk result (self.new ≡ self.old ++ (label, value) ∷ []) }
        ensures err { OnErr result (self.new ≡ self.old) }
    {
        if self.newest.is_some() {
            self.older.reserve(1)?;
        }
        if let Some((own, older)) = self.newest.take() {
            self.older.insert(own, older)?;
        }
        self.newest = Some((label, value));
        Ok(())
    }

    /// A label gets this value in place of its own. Where the label isn't there, nothing changes.
    #[inline(always)]
    pub fn set(&mut self, label: u32, value: T)
        ensures value { self.new ≡ set_value (nat_eq label) self.old value }
        ensures once { IsDistinct nat_eq (keys_of self.old) }
    {
        match &mut self.newest {
            Some((own, newest)) if *own == label => *newest = value,
            _ => {
                if let Some(older) = self.older.get_mut(&label) {
                    *older = value;
                }
            }
        }
    }

    /// Removes a label with its value. `None` where the label isn't there; then nothing changes.
    #[inline(always)]
    pub fn remove(&mut self, label: u32) -> Option<T>
        ensures value { result ≡ lookup (nat_eq label) self.old }
        ensures left { self.new ≡ remove_entry (nat_eq label) self.old }
    {
        match &self.newest {
            Some((own, _)) if *own == label => {
                let (_, value) = self.newest.take()?;
                Some(value)
            }
            _ if self.older.is_empty() => None,
            _ => self.older.shift_remove(&label),
        }
    }
}
