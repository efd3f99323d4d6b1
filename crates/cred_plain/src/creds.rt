//! The sealed credentials.
ghost use Rattle.std.specs.Prelude.{◌≡◌, ℕ, ◌==◌, ◌++◌, ◌∷◌, [], false, filter, find, length};
ghost use Rattle.std.specs.Prelude.{nat_lt, slice_get, true, IfOk, IfSome, OnOk};
ghost use Rattle.std.specs.List.Sorted.{IsNonDecreasingBy, IsPartitionPoint};
ghost use Rattle.std.specs.Option.{option_map};
ghost use Rattle.cred_model.specs.State as model;
ghost use Rattle.cred_plain.specs.Creds.{gone, seen_numbered, slots_of, under};
ghost use Rattle.cred_plain.specs.References.{refer_to};

use crate::references::References;
use cred_ids::{Id, NoMemory};
use cred_record::{Cred, first};
use std::alloc::Global;
use std::marker::Model;

/// A credential under its number.
#[derive(Drop)]
pub struct Stored {
    pub number: u64,
    pub cred: Cred,
}

impl Model for Stored {
    ghost use Rattle.cred_plain.specs.Creds.{StoredCred};

    ghost Value = { StoredCred };

    ghost view = { λ s. record { number = s.number; cred = s.cred } };
}

/// A sealed credential, with its number and its slot.
#[derive(Clone, Copy)]
pub struct Numbered<'a> {
    pub number: u64,
    pub cred: &'a Cred,
    pub slot: u32,
}

/// The credentials that something refers to, in the order of their numbers, and the slot of each
/// number that was ever sealed. Contracts see what is stored, and the list of the sealed
/// credentials with their slots: there each credential that was forgotten is replaced by one, the
/// same for all.
#[derive(Drop)]
pub struct Creds {
    stored: Vec<Stored>,
    slots: Vec<u32>,
    forgotten: Cred,
}

impl Model for Creds {
    ghost use Rattle.std.specs.Prelude.{◌&&◌, length, nat_lt, vec_capacity, vec_len};
    ghost use Rattle.cred_plain.specs.Creds.{IsHeld, Sealed, sealed_of};

    ghost Value = { Sealed };

    ghost view = { λ c. record {
      list = sealed_of c.forgotten c.stored.items c.slots.items;
      stored = c.stored.items;
      roomy = nat_lt (vec_len c.stored) (vec_capacity c.stored)
          && nat_lt (vec_len c.slots) (vec_capacity c.slots);
    } };

    ghost invariant = { λ c. IsHeld c.forgotten c.stored.items (length c.slots.items) };
}

impl Creds {
    /// The credentials before the first one is sealed.
    ///
    /// # Errors
    ///
    /// `NoMemory` if an allocation fails.
    pub fn new(alloc: Global) -> Result<Creds, NoMemory>
        ensures { IfOk result (λ creds. creds.list ≡ []) }
    {
        let zero = Id::new(0).unwrap();
        Ok(Creds {
            stored: Vec::new(alloc),
            slots: Vec::new(alloc),
            forgotten: first(alloc, zero, zero, 0, zero)?,
        })
    }

    /// The number that the next sealed credential gets.
    pub fn next_number(&self) -> u64
        ensures { result ≡ length self.now.list }
    {
        self.slots.len() as u64
    }

    /// The slot of a number. `None` where that wasn't sealed.
    pub fn slot_of(&self, number: u64) -> Option<u32>
        ensures { result ≡ option_map (λ sealed. sealed.slot) (slice_get self.now.list number) }
    {
        slot_in(&self.slots, number)
    }

    /// The sealed credential of a number.
    pub fn get(&self, number: u64) -> Option<Numbered<'_>>
        ensures { option_map seen_numbered result ≡ model.numbered self.now.list number }
    {
        let slot = self.slot_of(number)?;
        let cred = credential(&self.stored, &self.forgotten, number);
        Some(Numbered { number, cred, slot })
    }

    /// Makes room for one more. What is sealed and what is stored stays.
    ///
    /// # Errors
    ///
    /// `NoMemory` if an allocation fails: then there may be no room for one more.
    pub fn reserve(&mut self) -> Result<(), NoMemory>
        ensures list { self.new.list ≡ self.old.list }
        ensures stored { self.new.stored ≡ self.old.stored }
        ensures room { OnOk result (self.new.roomy ≡ true) }
    {
        self.stored.reserve(1)?;
        self.slots.reserve(1)?;
        Ok(())
    }

    /// Seals a credential in a slot, under the next number, which it returns.
    pub fn seal(&mut self, cred: Cred, slot: u32) -> u64
        requires { self.old.roomy ≡ true }
        ensures number { result ≡ length self.old.list }
        ensures sealed { self.new.list
            ≡ self.old.list ++ record { cred = cred; slot = slot } ∷ [] }
        ensures stored { self.new.stored
            ≡ self.old.stored ++ record { number = result; cred = cred } ∷ [] }
    {
        let number = self.next_number();
        // There is room.
        self.stored.push(Stored { number, cred }).unwrap();
        self.slots.push(slot).unwrap();
        number
    }

    /// Forgets the credentials of all numbers but those that are referred to: of what was stored,
    /// just those stay.
    pub fn forget(&mut self, references: &References<'_>)
        ensures stored { self.new.stored
            ≡ filter (λ s. refer_to references.now s.number) self.old.stored }
        ensures slots { slots_of self.new.list ≡ slots_of self.old.list }
        ensures kept { (n : ℕ) → refer_to references.now n ≡ true
            → slice_get self.new.list n ≡ slice_get self.old.list n }
        ensures gone { (n : ℕ) → refer_to references.now n ≡ false
            → IfSome (slice_get self.new.list n) (λ sealed. sealed.cred ≡ gone) }
    {
        let oldest = references.oldest();
        self.stored
            .retain(|stored| references.refer_to(stored.number, oldest));
    }
}

/// The slot of a number, where these are the slots of all that were sealed.
fn slot_in(slots: &[u32], number: u64) -> Option<u32>
    ensures { result ≡ slice_get slots.now number }
{
    slots.get(number as usize).copied()
}

/// The credential that is stored under a number, or the one that stands for those that are gone.
fn credential<'a>(stored: &'a [Stored], forgotten: &'a Cred, number: u64) -> &'a Cred
    requires { IsNonDecreasingBy (λ s. s.number) stored.now }
    ensures { result.now ≡ under forgotten.now stored.now number }
{
    match stored_of(stored, number) {
        Some(found) => &found.cred,
        None => forgotten,
    }
}

/// What is stored under a number.
fn stored_of(stored: &[Stored], number: u64) -> Option<&Stored>
    requires { IsNonDecreasingBy (λ s. s.number) stored.now }
    ensures { option_map (λ s. s.now) result ≡ find (λ s. s.number == number) stored.now }
{
    match stored.get(place_from(stored, number)) {
        Some(found) if found.number == number => Some(found),
        _ => None,
    }
}

/// Where the numbers below this one end.
fn place_from(stored: &[Stored], number: u64) -> usize
    requires { IsNonDecreasingBy (λ s. s.number) stored.now }
    ensures { IsPartitionPoint (λ s. nat_lt s.number number ≡ true)
        (λ s. nat_lt s.number number ≡ false) stored.now result }
{
    stored.partition_point(|stored| stored.number < number)
}
