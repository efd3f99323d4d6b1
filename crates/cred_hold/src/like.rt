//! The parts of a slot that id calls look at, and a slot that is put from another one and parts.
ghost use Rattle.std.specs.Prelude.{◌≡◌, ◌+◌, ◌-◌, ◌<◌, IfSome, None, Some, take, slice_index};
ghost use Rattle.std.specs.Prelude.{true};
ghost use Rattle.cred_ids.specs.Groups.{IsGroupList};
ghost use Rattle.cred_record.specs.Credential.{Credential, AreValidSets};
ghost use Rattle.cred_record.specs.Words.{are_ids, are_words, credential_in, flags_word};
ghost use Rattle.cred_record.specs.Words.{words_of, IsCredential};
ghost use Rattle.cred_setid.specs.declared.parts.IdParts.{IdParts};
ghost use Rattle.cred_setid.specs.Parts.{parts_of, changed};
ghost use Rattle.cred_words.specs.Seen.{IsSealedSlot};
ghost use Rattle.cred_words.specs.Words.{put_words, words_at};
ghost use Rattle.cred_hold.specs.Tokens.{IsAgain};

use crate::parts::ids_from_valid;
use crate::tokens;
use crate::words::{clear, gather};
use cred_caps::CapSet;
use cred_ids::{Groups, Id, Ids4};
use cred_packed::{flags_with, group_count, group_word, id_words, secure_bits};
use cred_record::WORDS;
use cred_record::layout::{
    AMBIENT, BOUNDING, EFFECTIVE, FLAGS, GROUPS, INHERITABLE, NAMESPACE, PERMITTED, ROOT, USER,
};
use cred_setid::IdParts;
use cred_words::cells::{
    Cells, HoldSeat, MasterSeat, WriterSeat, load_own_word, load_word, settle_word,
};

/// What an id call looks at of the slot that is held, whose words are a credential's.
#[inline(always)]
fn parts_in(cells: &Cells, hold: &mut HoldSeat, slot: u32) -> IdParts
    requires own { hold.old.id ≡ cells.now }
    requires slot { slot ≡ hold.old.token.slot }
    requires known { are_words hold.old.token.words ≡ true }
    ensures parts { result ≡ parts_of (credential_in hold.old.token.words) }
    ensures same { hold.new ≡ hold.old }
{
    let (uid, gid) = ids_from_valid(gather::<4>(cells, hold, slot, USER));
    let perm = CapSet::from_valid(load_word(cells, hold, slot, PERMITTED));
    let eff = CapSet::from_valid(load_word(cells, hold, slot, EFFECTIVE));
    let amb = CapSet::from_valid(load_word(cells, hold, slot, AMBIENT));
    let bits = secure_bits(load_word(cells, hold, slot, FLAGS));
    let root = Id::from_valid(load_word(cells, hold, slot, ROOT) as u32);
    IdParts {
        uid,
        gid,
        perm,
        eff,
        amb,
        bits,
        root,
    }
}

/// What an id call looks at of a sealed slot, by a hold that is lent and comes back. What else is
/// lent stays.
#[inline(always)]
pub(crate) fn read_sealed_parts(master: &mut MasterSeat, cells: &Cells, slot: u32) -> IdParts
    requires own { master.old.id ≡ cells.now }
    requires empty { master.old.ledger.kept ≡ None }
    requires sealed { IsSealedSlot master.old.ledger slot }
    requires known { are_words (words_at master.old.ledger.slots slot) ≡ true }
    ensures parts { result ≡ parts_of (credential_in (words_at master.old.ledger.slots slot)) }
    ensures same { (master.new.id ≡ master.old.id)
        × IsAgain master.old.ledger master.new.ledger }
{
    let mut hold = master.lend_hold(cells, 0, slot);
    let parts = parts_in(cells, &mut hold, slot);
    master.return_hold(cells, hold);
    master.load_after_return(cells, false);
    parts
}

/// The four are ids. There is nothing to run.
fn are_ids(ids: &Ids4)
    ensures { are_ids ids.now ≡ true }
{
    let _ = (
        ids.real.number(),
        ids.effective.number(),
        ids.saved.number(),
        ids.fs.number(),
    );
}

/// Groups that are given are groups. There is nothing to run.
fn are_given(groups: &Option<Groups>)
    ensures { IfSome groups.now IsGroupList }
{
    if let Some(groups) = groups {
        groups.are_groups();
    }
}

/// A credential that is given these parts and groups is one still, where the sets fit. There is
/// nothing to run.
fn are_parts(parts: &IdParts, groups: &Option<Groups>)
    ensures { (c : Credential) → IsCredential c →
        AreValidSets parts.now.perm c.inh parts.now.eff parts.now.amb →
        IsCredential (changed c parts.now groups.now) }
{
    are_ids(&parts.uid);
    are_ids(&parts.gid);
    are_given(groups);
    let _ = (parts.perm.bits(), parts.eff.bits(), parts.amb.bits());
}

/// The word of flags of a credential that is given these groups.
#[inline(always)]
fn flags_like(flags: u64, groups: &Option<Groups>) -> u64
    requires { (c : Credential) × IsCredential c × (flags ≡ flags_word c) }
    ensures { (c : Credential) → (own : IdParts) → IsCredential c → flags ≡ flags_word c →
        result ≡ flags_word (changed c own groups.now) }
{
    match groups {
        Some(groups) => flags_with(flags, groups.len()),
        None => flags,
    }
}

/// The words before those of groups of the credential that is held, with these parts and groups.
#[inline(always)]
fn head_like(
    cells: &Cells,
    hold: &mut HoldSeat,
    from: u32,
    parts: &IdParts,
    groups: &Option<Groups>,
) -> [u64; GROUPS]
    requires own { hold.old.id ≡ cells.now }
    requires slot { from ≡ hold.old.token.slot }
    requires known { are_words hold.old.token.words ≡ true }
    ensures words { result ≡ take GROUPS
        (words_of (changed (credential_in hold.old.token.words) parts.now groups.now)) }
    ensures same { hold.new ≡ hold.old }
{
    let (user, saved_user) = id_words(&parts.uid);
    let (group, saved_group) = id_words(&parts.gid);
    let inh = load_word(cells, hold, from, INHERITABLE);
    let bound = load_word(cells, hold, from, BOUNDING);
    let flags = load_word(cells, hold, from, FLAGS);
    let ns = load_word(cells, hold, from, NAMESPACE);
    let root = load_word(cells, hold, from, ROOT);
    [
        user,
        saved_user,
        group,
        saved_group,
        parts.perm.bits(),
        inh,
        parts.eff.bits(),
        bound,
        parts.amb.bits(),
        flags_like(flags, groups),
        ns,
        root,
    ]
}

/// The word `i` of those of groups of the credential that is held, with these groups.
#[inline(always)]
fn word_like(
    cells: &Cells,
    hold: &mut HoldSeat,
    from: u32,
    groups: &Option<Groups>,
    i: usize,
) -> u64
    requires own { hold.old.id ≡ cells.now }
    requires slot { from ≡ hold.old.token.slot }
    requires known { are_words hold.old.token.words ≡ true }
    requires within { i < WORDS - GROUPS }
    ensures word { (own : IdParts) → result ≡ slice_index
        (words_of (changed (credential_in hold.old.token.words) own groups.now)) (GROUPS + i) }
    ensures same { hold.new ≡ hold.old }
{
    match groups {
        Some(groups) => group_word(groups, i),
        None => load_word(cells, hold, from, GROUPS + i),
    }
}

/// Puts in the slot that is written the credential that is held, with these parts and groups: of
/// the words past the new groups only those that have old ones are cleared.
#[inline(always)]
fn scatter_like(
    cells: &Cells,
    hold: &mut HoldSeat,
    from: u32,
    writer: &mut WriterSeat,
    slot: u32,
    parts: &IdParts,
    groups: &Option<Groups>,
)
    requires own { (hold.old.id ≡ cells.now) × (writer.old.id ≡ cells.now) }
    requires slots { (from ≡ hold.old.token.slot) × (slot ≡ writer.old.token.slot) }
    requires held { are_words hold.old.token.words ≡ true }
    requires known { are_words writer.old.token.words ≡ true }
    requires made { IsCredential
        (changed (credential_in hold.old.token.words) parts.now groups.now) }
    ensures words { (writer.new.id ≡ writer.old.id) × (writer.new.token ≡ put_words writer.old.token
        (words_of (changed (credential_in hold.old.token.words) parts.now groups.now))) }
    ensures same { hold.new ≡ hold.old }
{
    let flags = load_own_word(cells, writer, slot, FLAGS);
    let before = group_count(flags);
    let first = head_like(cells, hold, from, parts, groups);
    for place in 0..GROUPS {
        settle_word(cells, writer, slot, place, first[place]);
    }
    let end = group_count(first[FLAGS]).div_ceil(2);
    for i in 0..end {
        let word = word_like(cells, hold, from, groups, i);
        settle_word(cells, writer, slot, GROUPS + i, word);
    }
    clear(
        cells,
        writer,
        slot,
        GROUPS + end,
        GROUPS + before.div_ceil(2),
    );
}

/// The same from a sealed slot, by a hold that is lent and comes back. What else is lent stays.
#[inline(always)]
fn scatter_from(
    master: &mut MasterSeat,
    cells: &Cells,
    from: u32,
    writer: &mut WriterSeat,
    slot: u32,
    parts: &IdParts,
    groups: &Option<Groups>,
)
    requires own { (master.old.id ≡ cells.now) × (writer.old.id ≡ cells.now) }
    requires empty { master.old.ledger.kept ≡ None }
    requires sealed { IsSealedSlot master.old.ledger from }
    requires held { are_words (words_at master.old.ledger.slots from) ≡ true }
    requires slot { slot ≡ writer.old.token.slot }
    requires known { are_words writer.old.token.words ≡ true }
    requires made { IsCredential
        (changed (credential_in (words_at master.old.ledger.slots from)) parts.now groups.now) }
    ensures words { (writer.new.id ≡ writer.old.id) × (writer.new.token ≡ put_words writer.old.token
        (words_of (changed (credential_in (words_at master.old.ledger.slots from)) parts.now
        groups.now))) }
    ensures same { (master.new.id ≡ master.old.id)
        × IsAgain master.old.ledger master.new.ledger }
{
    let mut hold = master.lend_hold(cells, 0, from);
    scatter_like(cells, &mut hold, from, writer, slot, parts, groups);
    master.return_hold(cells, hold);
    master.load_after_return(cells, false);
}

/// Puts on the writer's slot the credential of a sealed slot with these parts, and with these
/// groups where some are given, by a hold that is lent and comes back.
#[inline(always)]
pub(crate) fn put_like(
    master: &mut MasterSeat,
    cells: &Cells,
    from: u32,
    writer: &mut tokens::Writer,
    parts: &IdParts,
    groups: &Option<Groups>,
)
    requires own { (master.old.id ≡ cells.now) × (writer.old.id ≡ cells.now) }
    requires empty { master.old.ledger.kept ≡ None }
    requires sealed { IsSealedSlot master.old.ledger from }
    requires held { are_words (words_at master.old.ledger.slots from) ≡ true }
    requires valid { AreValidSets parts.now.perm
        (credential_in (words_at master.old.ledger.slots from)).inh parts.now.eff parts.now.amb }
    ensures put { writer.new ≡ record writer.old {
      put = Some (changed (credential_in (words_at master.old.ledger.slots from)) parts.now
          groups.now);
    } }
    ensures same { (master.new.id ≡ master.old.id)
        × IsAgain master.old.ledger master.new.ledger }
{
    are_parts(parts, groups);
    scatter_from(
        master,
        cells,
        from,
        &mut writer.inner,
        writer.slot,
        parts,
        groups,
    );
    writer.put = true;
}
