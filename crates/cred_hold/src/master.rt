//! The master of the shared words: what it lends, and what it takes back.
ghost use Rattle.std.specs.Prelude.{◌≡◌, ◌≢◌, ◌<◌, [], ◌∷◌, Some, None, IfOk, length, slice_get};
ghost use Rattle.std.specs.Prelude.{slice_set, ◌↔◌, IsTrue, MatchOption};
ghost use Rattle.cred_ids.specs.Limits.{SLOTS};
ghost use Rattle.cred_words.specs.Lists.{IsTaken};
ghost use Rattle.cred_record.specs.Credential.{Credential, AreValidSets};
ghost use Rattle.cred_setid.specs.Parts.{parts_of, changed};
ghost use Rattle.cred_hold.specs.Tokens.{loan, none_sealed, IsSealed, IsAlone};

use crate::like::{put_like, read_sealed_parts};
use crate::parts::ns_from_valid;
use crate::tokens::{HoldToken, Writer, put, put_head};
use crate::words::{is_sealed_head, load_sealed, read_sealed};
use cred_ids::{Groups, NoMemory};
use cred_packed::Head;
use cred_record::Cred;
use cred_record::layout::{GROUPS, NAMESPACE};
use cred_setid::IdParts;
use cred_words::{Cells, cells};
use std::alloc::Global;
use std::marker::Model;

/// The master's token, of which cells have one. Contracts see the identity of its cells, what is
/// lent, the newest first, and for each slot the credential that is sealed there, if one is.
#[derive(Drop)]
pub struct Master {
    inner: cells::MasterSeat,
}

impl Model for Master {
    ghost use Rattle.std.specs.Prelude.{◌≡◌, None, length, map};
    ghost use Rattle.cred_hold.specs.Tokens.{Mastered, AreSlots, loan_seen, slot_seen};

    ghost Value = { Mastered };

    ghost use Rattle.cred_words.specs.Size.{count};

    ghost view = { λ m. record {
      id = m.inner.id;
      loans = map loan_seen m.inner.ledger.loans;
      slots = map slot_seen m.inner.ledger.slots;
    } };

    ghost invariant = { λ m. (m.inner.ledger.kept ≡ None)
        × AreSlots m.inner.ledger.slots
        × (length m.inner.ledger.slots ≡ count) };
}

/// Cells with no slot sealed and nothing lent, and their master.
///
/// # Errors
///
/// `NoMemory` if the allocation of the cells fails.
pub fn make(alloc: Global) -> Result<(Cells, Master), NoMemory>
    ensures { IfOk result (λ r. (r.1.id ≡ r.0) × (r.1.loans ≡ [])
        × (r.1.slots ≡ none_sealed)) }
{
    let (cells, inner) = Cells::make(alloc)?;
    Ok((cells, Master { inner }))
}

impl Master {
    /// Lends a hold on a sealed slot. It takes no memory.
    pub fn lend(&mut self, cells: &Cells, label: u32, slot: u32) -> HoldToken
        requires own { self.old.id ≡ cells.now }
        requires sealed { IsSealed self.old.slots slot }
        ensures hold { (result.id ≡ self.old.id) × (result.label ≡ label) × (result.slot ≡ slot) }
        ensures cred { slice_get self.old.slots slot ≡ Some (Some result.cred) }
        ensures loans { self.new.loans
            ≡ loan label slot (Some result.cred) ∷ self.old.loans }
        ensures rest { (self.new.id ≡ self.old.id) × (self.new.slots ≡ self.old.slots) }
    {
        HoldToken {
            inner: self.inner.lend_hold(cells, label, slot),
            label,
            slot,
        }
    }

    /// Takes a hold back, and its loan from what is lent. It takes no memory.
    pub fn give_back(&mut self, cells: &Cells, hold: HoldToken)
        requires own { (self.old.id ≡ cells.now) × (hold.id ≡ cells.now) }
        ensures taken { IsTaken self.old.loans (loan hold.label hold.slot (Some hold.cred))
            self.new.loans }
        ensures cred { slice_get self.old.slots hold.slot ≡ Some (Some hold.cred) }
        ensures rest { (self.new.id ≡ self.old.id) × (self.new.slots ≡ self.old.slots) }
    {
        let HoldToken {
            inner,
            label: _,
            slot: _,
        } = hold;
        self.inner.return_hold(cells, inner);
        self.inner.load_after_return(cells, false);
    }

    /// Lends a writer on a slot on which nothing is lent. The slot is no longer sealed. It takes no
    /// memory.
    pub fn lend_writer(&mut self, cells: &Cells, label: u32, slot: u32) -> Writer
        requires own { self.old.id ≡ cells.now }
        requires within { slot < SLOTS }
        requires alone { IsAlone self.old.loans slot }
        ensures writer { (result.id ≡ self.old.id) × (result.label ≡ label)
            × (result.slot ≡ slot) × (result.put ≡ None) }
        ensures loans { self.new.loans ≡ loan label slot None ∷ self.old.loans }
        ensures slots { self.new.slots ≡ slice_set self.old.slots slot None }
        ensures long { length self.old.slots ≡ SLOTS }
        ensures same { self.new.id ≡ self.old.id }
    {
        Writer {
            inner: self.inner.lend_writer(cells, label, slot),
            slot,
            put: false,
        }
    }

    /// Takes a writer back, and its loan from what is lent. The slot has the credential that was
    /// put last, or is not sealed where nothing was put. It takes no memory.
    pub fn take_back(&mut self, cells: &Cells, writer: Writer)
        requires own { (self.old.id ≡ cells.now) × (writer.id ≡ cells.now) }
        ensures taken { IsTaken self.old.loans (loan writer.label writer.slot None)
            self.new.loans }
        ensures slot { slice_get self.new.slots writer.slot ≡ Some writer.put }
        ensures slots { self.new.slots ≡ slice_set self.old.slots writer.slot writer.put }
        ensures same { self.new.id ≡ self.old.id }
    {
        let Writer {
            inner,
            slot: _,
            put,
        } = writer;
        self.inner.return_writer(cells, inner);
        self.inner.load_after_return(cells, put);
    }

    /// The credential of a sealed slot, for the owner of the master: a hold is lent, read and taken
    /// back. What else is lent stays.
    ///
    /// # Errors
    ///
    /// `NoMemory` if the allocation of the groups fails. The master stays as it was, as on success.
    pub fn read_slot(&mut self, alloc: Global, cells: &Cells, slot: u32) -> Result<Cred, NoMemory>
        requires own { self.old.id ≡ cells.now }
        requires sealed { IsSealed self.old.slots slot }
        ensures cred { IfOk result (λ c. slice_get self.old.slots slot ≡ Some (Some c)) }
        ensures same { self.new ≡ self.old }
    {
        read_sealed(alloc, &mut self.inner, cells, slot)
    }

    /// What an id call looks at of the credential of a sealed slot. It takes no memory. What is
    /// lent stays.
    #[inline(always)]
    pub fn read_parts(&mut self, cells: &Cells, slot: u32) -> IdParts
        requires own { self.old.id ≡ cells.now }
        requires sealed { IsSealed self.old.slots slot }
        ensures parts { (c : Credential) → slice_get self.old.slots slot ≡ Some (Some c) →
            (result ≡ parts_of c) × AreValidSets c.perm c.inh c.eff c.amb }
        ensures same { self.new ≡ self.old }
    {
        read_sealed_parts(&mut self.inner, cells, slot)
    }

    /// The user namespace of the credential of a sealed slot. It takes no memory. What is lent
    /// stays.
    pub fn read_ns(&mut self, cells: &Cells, slot: u32) -> u32
        requires own { self.old.id ≡ cells.now }
        requires sealed { IsSealed self.old.slots slot }
        ensures ns { (c : Credential) → slice_get self.old.slots slot ≡ Some (Some c) →
            result ≡ c.ns }
        ensures same { self.new ≡ self.old }
    {
        ns_from_valid(load_sealed::<1>(&mut self.inner, cells, slot, NAMESPACE))
    }

    /// The words of the credential of a sealed slot. `None` exactly where it has groups. It takes
    /// no memory. What is lent stays.
    pub fn head(&mut self, cells: &Cells, slot: u32) -> Option<Head>
        requires own { self.old.id ≡ cells.now }
        requires sealed { IsSealed self.old.slots slot }
        ensures head { (c : Credential) → slice_get self.old.slots slot ≡ Some (Some c) →
            MatchOption result (c.groups ≢ []) (λ head. head ≡ c) }
        ensures same { self.new ≡ self.old }
    {
        Head::of(load_sealed::<GROUPS>(&mut self.inner, cells, slot, 0))
    }

    /// Whether the credential of a sealed slot is the one that has these words. It takes no memory.
    /// What is lent stays.
    #[inline(always)]
    pub fn has_head(&mut self, cells: &Cells, slot: u32, head: &Head) -> bool
        requires own { self.old.id ≡ cells.now }
        requires sealed { IsSealed self.old.slots slot }
        ensures value { IsTrue result
            ↔ slice_get self.old.slots slot ≡ Some (Some head.now) }
        ensures same { self.new ≡ self.old }
    {
        is_sealed_head(&mut self.inner, cells, slot, head)
    }

    /// Puts a credential on a slot on which nothing is lent, for the owner of the master: a writer
    /// is lent, put by and taken back. What else is lent stays. It takes no memory.
    pub fn set(&mut self, cells: &Cells, slot: u32, cred: &Cred)
        requires own { self.old.id ≡ cells.now }
        requires within { slot < SLOTS }
        requires alone { IsAlone self.old.loans slot }
        ensures made { self.new ≡ record self.old {
          slots = slice_set self.old.slots slot (Some cred.now);
        } }
        ensures long { length self.old.slots ≡ SLOTS }
    {
        let mut writer = self.lend_writer(cells, 0, slot);
        put(cells, &mut writer, cred);
        self.take_back(cells, writer);
    }

    /// Puts the credential that has these words on a slot on which nothing is lent, as `set` does.
    #[inline(always)]
    pub fn set_head(&mut self, cells: &Cells, slot: u32, head: &Head)
        requires own { self.old.id ≡ cells.now }
        requires within { slot < SLOTS }
        requires alone { IsAlone self.old.loans slot }
        ensures made { self.new ≡ record self.old {
          slots = slice_set self.old.slots slot (Some head.now);
        } }
        ensures long { length self.old.slots ≡ SLOTS }
    {
        let mut writer = self.lend_writer(cells, 0, slot);
        put_head(cells, &mut writer, head);
        self.take_back(cells, writer);
    }

    /// Puts on a slot on which nothing is lent the credential of another slot, which is sealed,
    /// with these parts, and with these groups where some are given. The words of all else are
    /// copied from slot to slot. It takes no memory. What is lent stays.
    #[inline(always)]
    pub fn set_like(
        &mut self,
        cells: &Cells,
        from: u32,
        slot: u32,
        parts: &IdParts,
        groups: &Option<Groups>,
    )
        requires own { self.old.id ≡ cells.now }
        requires sealed { IsSealed self.old.slots from }
        requires within { slot < SLOTS }
        requires alone { IsAlone self.old.loans slot }
        requires apart { from ≢ slot }
        requires valid { (c : Credential) → slice_get self.old.slots from ≡ Some (Some c) →
            AreValidSets parts.now.perm c.inh parts.now.eff parts.now.amb }
        ensures made { (c : Credential) → slice_get self.old.slots from ≡ Some (Some c) →
            self.new ≡ record self.old {
              slots = slice_set self.old.slots slot (Some (changed c parts.now groups.now));
            } }
        ensures long { length self.old.slots ≡ SLOTS }
    {
        let mut writer = self.lend_writer(cells, 0, slot);
        self.put_like(cells, from, &mut writer, parts, groups);
        self.take_back(cells, writer);
    }

    /// The same by a writer that is lent already.
    #[inline(always)]
    fn put_like(
        &mut self,
        cells: &Cells,
        from: u32,
        writer: &mut Writer,
        parts: &IdParts,
        groups: &Option<Groups>,
    )
        requires own { (self.old.id ≡ cells.now) × (writer.old.id ≡ cells.now) }
        requires sealed { IsSealed self.old.slots from }
        requires valid { (c : Credential) → slice_get self.old.slots from ≡ Some (Some c) →
            AreValidSets parts.now.perm c.inh parts.now.eff parts.now.amb }
        ensures put { (c : Credential) → slice_get self.old.slots from ≡ Some (Some c) →
            writer.new ≡ record writer.old { put = Some (changed c parts.now groups.now) } }
        ensures same { self.new ≡ self.old }
    {
        put_like(&mut self.inner, cells, from, writer, parts, groups);
    }

    /// Leaves nothing in the words of a slot on which nothing is lent: it is not sealed from then
    /// on. What else is lent stays. It takes no memory.
    pub fn clear(&mut self, cells: &Cells, slot: u32)
        requires own { self.old.id ≡ cells.now }
        requires within { slot < SLOTS }
        requires alone { IsAlone self.old.loans slot }
        ensures made { self.new ≡ record self.old { slots = slice_set self.old.slots slot None } }
        ensures long { length self.old.slots ≡ SLOTS }
    {
        let writer = self.lend_writer(cells, 0, slot);
        self.take_back(cells, writer);
    }
}
