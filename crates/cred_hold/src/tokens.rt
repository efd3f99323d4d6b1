//! What is lent: holds and writers.
ghost use Rattle.std.specs.Prelude.{◌≡◌, Some, None, IfOk, [], ◌∷◌};

use crate::parts::{caps_from_valid, ids_from_valid};
use crate::words::{gather, groups_of, read_whole, scatter, scatter_head};
use cred_caps::CapSet;
use cred_ids::{Groups, Ids4, NoMemory};
use cred_packed::{Head, group_count};
use cred_record::layout::{FLAGS, PERMITTED, USER};
use cred_record::{Cred, is_credential};
use cred_words::{Cells, cells};
use std::alloc::Global;
use std::marker::Model;

/// A sealed slot that is lent to be read. The credential stands in the shared words alone.
/// Contracts see the identity of its cells, its label, its slot and the credential.
#[derive(Drop)]
pub struct HoldToken {
    pub(crate) inner: cells::HoldSeat,
    pub(crate) label: u32,
    pub(crate) slot: u32,
}

impl Model for HoldToken {
    ghost use Rattle.std.specs.Prelude.{◌≡◌, true, false, length};
    ghost use Rattle.cred_hold.specs.Tokens.{Held};

    ghost Value = { Held };

    ghost use Rattle.cred_words.specs.Size.{width};
    ghost use Rattle.cred_record.specs.Words.{are_words, credential_in};

    ghost view = { λ h. record {
      id = h.inner.id;
      label = h.inner.token.label;
      slot = h.inner.token.slot;
      cred = credential_in h.inner.token.words;
    } };

    ghost invariant = { λ h. (h.slot ≡ h.inner.token.slot)
        × (h.inner.token.writes ≡ false)
        × (length h.inner.token.words ≡ width)
        × (are_words h.inner.token.words ≡ true)
        × (h.label ≡ h.inner.token.label) };
}

impl HoldToken {
    /// The label that it is lent under.
    pub fn label(&self) -> u32
        ensures { result ≡ self.now.label }
    {
        self.label
    }
}

/// A slot that is lent to be written. Contracts see the identity of its cells, its label, its slot,
/// and the credential that was put last, or that none was.
#[derive(Drop)]
pub struct Writer {
    pub(crate) inner: cells::WriterSeat,
    pub(crate) slot: u32,
    pub(crate) put: bool,
}

impl Model for Writer {
    ghost use Rattle.std.specs.Prelude.{◌≡◌, true};
    ghost use Rattle.cred_hold.specs.Tokens.{Written, seen_if};

    ghost Value = { Written };

    ghost use Rattle.cred_record.specs.Words.{are_words};

    ghost view = { λ w. record {
      id = w.inner.id;
      label = w.inner.token.label;
      slot = w.inner.token.slot;
      put = seen_if w.put w.inner.token.words;
    } };

    ghost invariant = { λ w. (w.slot ≡ w.inner.token.slot)
        × (w.inner.token.writes ≡ true)
        × (are_words w.inner.token.words ≡ true) };
}

/// The credential that is held, whatever other tokens read and put meanwhile. It waits for nobody.
///
/// # Errors
///
/// `NoMemory` if the allocation of the groups fails. The hold stays as it was, as on success.
pub fn read(alloc: Global, cells: &Cells, hold: &mut HoldToken) -> Result<Cred, NoMemory>
    requires { hold.old.id ≡ cells.now }
    ensures value { IfOk result (λ c. c ≡ hold.old.cred) }
    ensures same { hold.new ≡ hold.old }
{
    read_whole(alloc, cells, &mut hold.inner, hold.slot)
}

/// The user ids and the group ids of the credential that is held. It takes no memory and waits for
/// nobody.
#[inline(always)]
pub fn read_ids(cells: &Cells, hold: &mut HoldToken) -> (Ids4, Ids4)
    requires { hold.old.id ≡ cells.now }
    ensures value { (result.0 ≡ hold.old.cred.uid) × (result.1 ≡ hold.old.cred.gid) }
    ensures same { hold.new ≡ hold.old }
{
    ids_from_valid(gather::<4>(cells, &mut hold.inner, hold.slot, USER))
}

/// The permitted, inheritable, effective, bounding and ambient set of the credential that is held,
/// in this order. It takes no memory and waits for nobody.
#[inline(always)]
pub fn read_caps(cells: &Cells, hold: &mut HoldToken) -> [CapSet; 5]
    requires { hold.old.id ≡ cells.now }
    ensures value { result ≡ hold.old.cred.perm ∷ hold.old.cred.inh ∷ hold.old.cred.eff
        ∷ hold.old.cred.bound ∷ hold.old.cred.amb ∷ [] }
    ensures same { hold.new ≡ hold.old }
{
    caps_from_valid(gather::<5>(cells, &mut hold.inner, hold.slot, PERMITTED))
}

/// The groups of the credential that is held. It waits for nobody.
///
/// # Errors
///
/// `NoMemory` if the allocation of the groups fails. The hold stays as it was, as on success.
#[inline(always)]
pub fn read_groups(alloc: Global, cells: &Cells, hold: &mut HoldToken) -> Result<Groups, NoMemory>
    requires { hold.old.id ≡ cells.now }
    ensures value { IfOk result (λ groups. groups ≡ hold.old.cred.groups) }
    ensures same { hold.new ≡ hold.old }
{
    let [flags] = gather::<1>(cells, &mut hold.inner, hold.slot, FLAGS);
    let count = group_count(flags);
    groups_of(alloc, cells, &mut hold.inner, hold.slot, count)
}

/// Puts a credential on the writer's slot. It takes no memory and waits for nobody.
pub fn put(cells: &Cells, writer: &mut Writer, cred: &Cred)
    requires { writer.old.id ≡ cells.now }
    ensures { writer.new ≡ record writer.old { put = Some cred.now } }
{
    is_credential(cred);
    scatter(cells, &mut writer.inner, writer.slot, cred);
    writer.put = true;
}

/// Puts the credential of a head on the writer's slot. It takes no memory and waits for nobody.
#[inline(always)]
pub(crate) fn put_head(cells: &Cells, writer: &mut Writer, head: &Head)
    requires { writer.old.id ≡ cells.now }
    ensures { writer.new ≡ record writer.old { put = Some head.now } }
{
    head.is_credential();
    scatter_head(cells, &mut writer.inner, writer.slot, head);
    writer.put = true;
}

/// Forgets what was put: the slot is not sealed once the writer is taken back, as if nothing had
/// been put. It takes no memory and waits for nobody.
pub fn discard(writer: &mut Writer)
    ensures { writer.new ≡ record writer.old { put = None } }
{
    writer.put = false;
}
