//! The table of slots.
ghost use Rattle.std.specs.Prelude.{◌≡◌, ℕ, ◌<◌, ◌+◌, ◌-◌, ◌++◌, [], ◌∷◌, length, max, false, true};
ghost use Rattle.std.specs.Prelude.{slice_get, slice_set, count_by, ◌==◌, IfOk, OnOk, OnErr};
ghost use Rattle.std.specs.Prelude.{IsTrue};
ghost use Rattle.cred_ids.specs.Limits.{SLOTS};
ghost use Rattle.cred_slots.specs.Table.{empty_table, references_to, uses_in, is_sealed_in};
ghost use Rattle.cred_slots.specs.Table.{is_kept_in};
ghost use Rattle.cred_slots.specs.Table.{least_free_in, swept_table};
ghost use Rattle.cred_slots.specs.Table.{swept_table_if_full, free_in};
ghost use Rattle.cred_slots.specs.Table.{IsSameBag};
ghost use Rattle.cred_slots.specs.Table.{IsOnlyUser};

use crate::flags::Flags;
use crate::row::{Row, UNUSED, forget_late};
use cred_ids::{NoMemory, limits};
use std::alloc::Global;
use std::marker::Model;

/// A table of the slots for sealed credentials, which have numbers from 0 on. A slot is live while
/// something refers to a number in it, or while it is kept for a credential that is being prepared.
/// A reference that is given up counts until the next sweep.
///
/// Only `new` and `reserve` take memory.
#[derive(Drop, Debug)]
pub struct Slots {
    /// The slot of each sealed number.
    sealed: Vec<u32>,
    /// What is counted in each slot.
    rows: Vec<Row>,
    /// The numbers of the references that were given up since the last sweep.
    deferred: Vec<u64>,
    /// How many references there are that weren't given up.
    held: usize,
    /// How many more there is room for.
    spare: usize,
    /// The slots that are kept.
    kept: Flags,
    /// The slots in which something is held.
    used: Flags,
    /// The slots in which something was given up.
    late: Flags,
}

impl Model for Slots {
    ghost use Rattle.std.specs.Prelude.{vec_capacity};
    ghost use Rattle.cred_slots.specs.Table.{Table};
    ghost use Rattle.cred_slots.specs.Rows.{held_in, AreSoundRows};

    ghost Value = { Table };

    ghost view = { λ s. record {
      sealed = s.sealed.items;
      held = held_in s.rows.items;
      deferred = s.deferred.items;
      kept = s.kept;
      spare = s.spare;
    } };

    ghost invariant = { λ s.
        AreSoundRows s.rows.items s.sealed.items s.deferred.items s.kept s.used s.late s.held
        s.spare (vec_capacity s.sealed) (vec_capacity s.deferred) };
}

impl Slots {
    /// A table in which nothing is sealed, kept or given up.
    ///
    /// # Errors
    ///
    /// `NoMemory` if the allocation of the rows fails.
    pub fn new(alloc: Global) -> Result<Slots, NoMemory>
        ensures { IfOk result (λ slots. slots ≡ empty_table) }
    {
        let rows = Vec::from_array(alloc, [UNUSED; limits::SLOTS])?;
        Ok(Slots {
            sealed: Vec::new(alloc),
            rows,
            deferred: Vec::new(alloc),
            held: 0,
            spare: 0,
            kept: Flags::new(),
            used: Flags::new(),
            late: Flags::new(),
        })
    }

    /// The least slot that isn't live. Where all are, the least that isn't after a sweep.
    pub fn free_slot(&self) -> Option<u32>
        ensures { result ≡ free_in self.now }
    {
        match self.least_free() {
            Some(slot) => Some(slot),
            None => self.least_free_once_swept(),
        }
    }

    /// The number that `seal` would give.
    pub fn next_number(&self) -> u64
        ensures { result ≡ length self.now.sealed }
    {
        self.sealed.len() as u64
    }

    /// Keeps the slot that `free_slot` gives. If all are live, a sweep comes first.
    #[inline(always)]
    pub fn claim(&mut self, slot: u32)
        requires { free_in self.old ≡ Some slot }
        ensures table { self.new
            ≡ record (swept_table_if_full self.old) { kept = slice_set self.old.kept slot true } }
        ensures kept { IsTrue (is_kept_in self.new slot) }
    {
        self.make_room(slot);
        self.keep(slot);
    }

    /// The slot is no longer kept.
    pub fn give_up(&mut self, slot: u32)
        requires { IsTrue (is_kept_in self.old slot) }
        ensures { self.new ≡ record self.old { kept = slice_set self.old.kept slot false } }
    {
        self.kept.put(slot, false);
    }

    /// Takes the memory for one `seal` or `add`, if it isn't there, and for the reference once it
    /// is given up.
    ///
    /// # Errors
    ///
    /// `NoMemory` if an allocation fails: the table is as it was.
    #[inline(always)]
    pub fn reserve(&mut self) -> Result<(), NoMemory>
        ensures ok { OnOk result (self.new ≡ record self.old { spare = max self.old.spare 1 }) }
        ensures err { OnErr result (self.new ≡ self.old) }
    {
        if self.spare == 0 {
            self.sealed.reserve(1)?;
            self.deferred.reserve(self.held + 1)?;
            self.spare = 1;
        }
        Ok(())
    }

    /// Seals the next number in the slot, which is no longer kept, with one reference. Returns the
    /// number.
    #[inline(always)]
    pub fn seal(&mut self, slot: u32) -> u64
        requires kept { IsTrue (is_kept_in self.old slot) }
        requires spare { 0 < self.old.spare }
        ensures number { result ≡ length self.old.sealed }
        ensures in_table { slot < SLOTS }
        ensures alone { IsOnlyUser self.new result slot }
        ensures held { IsSameBag self.new.held (result ∷ self.old.held) }
        ensures table { self.new ≡ record self.old {
          sealed = self.old.sealed ++ slot ∷ [];
          held = self.new.held;
          kept = slice_set self.old.kept slot false;
          spare = self.old.spare - 1;
        } }
    {
        self.kept.put(slot, false);
        self.used.put(slot, true);
        let number = self.sealed.len() as u64;
        self.sealed.push_reserved(slot);
        self.rows[slot as usize] = Row {
            number,
            held: 1,
            late: 0,
        };
        self.held += 1;
        self.spare -= 1;
        number
    }

    /// Adds a reference to the number.
    #[inline(always)]
    pub fn add(&mut self, number: u64)
        requires referred { 0 < references_to self.old number }
        requires spare { 0 < self.old.spare }
        ensures held { IsSameBag self.new.held (number ∷ self.old.held) }
        ensures table { self.new ≡ record self.old {
          held = self.new.held;
          spare = self.old.spare - 1;
        } }
    {
        let slot = self.sealed[number as usize];
        self.rows[slot as usize].held += 1;
        self.used.put(slot, true);
        self.held += 1;
        self.spare -= 1;
    }

    /// Gives up a reference to the number. It counts until the next sweep.
    #[inline(always)]
    pub fn drop_later(&mut self, number: u64)
        requires { 0 < count_by (λ n. n == number) self.old.held }
        ensures held { IsSameBag self.old.held (number ∷ self.new.held) }
        ensures table { self.new ≡ record self.old {
          held = self.new.held;
          deferred = self.old.deferred ++ number ∷ [];
        } }
    {
        let slot = self.sealed[number as usize];
        let row = &mut self.rows[slot as usize];
        row.held -= 1;
        row.late += 1;
        let held = row.held;
        self.used.put(slot, held > 0);
        self.late.put(slot, true);
        self.held -= 1;
        self.deferred.push_reserved(number);
    }

    /// Drops all references that were given up.
    pub fn sweep(&mut self)
        ensures { self.new ≡ swept_table self.old }
    {
        self.deferred.clear();
        forget_late(self.rows.as_mut_slice());
        self.late = Flags::new();
    }

    /// How many references there are to the number that stands in the slot, with those that were
    /// given up since the last sweep; 0 where none stands there.
    pub fn uses(&self, slot: u32) -> u64
        ensures uses { result ≡ uses_in self.now slot }
        ensures one_number { (number : ℕ) → IsTrue (is_sealed_in self.now.sealed slot number)
            → 0 < references_to self.now number → result ≡ references_to self.now number }
    {
        match self.rows.get(slot as usize) {
            Some(row) => row.held + row.late,
            None => 0,
        }
    }

    /// The slot in which a sealed number stands.
    pub fn slot_of(&self, number: u64) -> u32
        requires { number < length self.now.sealed }
        ensures slot { slice_get self.now.sealed number ≡ Some result }
        ensures in_table { result < SLOTS }
    {
        self.sealed[number as usize]
    }

    /// The least slot that isn't live.
    #[inline(always)]
    fn least_free(&self) -> Option<u32>
        ensures { result ≡ least_free_in self.now }
    {
        self.kept.union(&self.used).union(&self.late).first_unset()
    }

    /// The least slot that isn't live after a sweep.
    fn least_free_once_swept(&self) -> Option<u32>
        ensures { result ≡ least_free_in (swept_table self.now) }
    {
        self.kept.union(&self.used).first_unset()
    }

    /// Sweeps if all slots are live. The slot is the one that is taken then: all are live just
    /// where something that was given up is counted in it.
    #[inline(always)]
    fn make_room(&mut self, slot: u32)
        requires { free_in self.old ≡ Some slot }
        ensures room { self.new ≡ swept_table_if_full self.old }
        ensures slot { least_free_in self.new ≡ Some slot }
    {
        let late = self.rows[slot as usize].late;
        if late > 0 {
            self.sweep();
        }
    }

    /// Keeps a slot that isn't live.
    fn keep(&mut self, slot: u32)
        requires { least_free_in self.old ≡ Some slot }
        ensures table { self.new ≡ record self.old { kept = slice_set self.old.kept slot true } }
        ensures kept { IsTrue (is_kept_in self.new slot) }
    {
        self.kept.put(slot, true);
    }
}
