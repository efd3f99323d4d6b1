//! The words of a slot, loaded or stored one after another.
ghost use Rattle.std.specs.Prelude.{◌≡◌, ◌↔◌, ◌+◌, ◌≤◌, ℕ, None, true, IfOk, IsTrue, length};
ghost use Rattle.std.specs.Prelude.{take, drop, slice_index};
ghost use Rattle.cred_record.specs.Words.{are_words, credential_in, group_count, words_of};
ghost use Rattle.cred_record.specs.declared.layout.TheConstants.{FLAGS};
ghost use Rattle.cred_words.specs.Seen.{IsSealedSlot};
ghost use Rattle.cred_words.specs.Size.{width};
ghost use Rattle.cred_words.specs.Words.{put_words, words_at};
ghost use Rattle.cred_hold.specs.Tokens.{IsAgain, AreZeros};

use cred_ids::{Groups, NoMemory};
use cred_packed::{
    Head, group_count, group_from_valid, head, head_from_valid, word_of_groups, words_of_groups,
};
use cred_record::Cred;
use cred_record::layout::{FLAGS, GROUPS};
use cred_words::cells::{
    Cells, HoldSeat, MasterSeat, WriterSeat, load_own_word, load_word, settle_word,
};
use std::alloc::Global;

/// `N` words of the slot that is held, from `first` on. Each is loaded at a moment of its own.
#[inline(always)]
pub(crate) fn gather<const N: usize>(
    cells: &Cells,
    hold: &mut HoldSeat,
    slot: u32,
    first: usize,
) -> [u64; N]
    requires own { hold.old.id ≡ cells.now }
    requires slot { slot ≡ hold.old.token.slot }
    requires wide { length hold.old.token.words ≡ width }
    requires within { first + N ≤ width }
    ensures words { result ≡ take N (drop first hold.old.token.words) }
    ensures same { hold.new ≡ hold.old }
{
    let mut words = [0u64; N];
    for i in 0..N {
        words[i] = load_word(cells, hold, slot, first + i);
    }
    words
}

/// The groups of the slot that is held, whose words are a credential's. There are `count`.
#[inline(always)]
pub(crate) fn groups_of(
    alloc: Global,
    cells: &Cells,
    hold: &mut HoldSeat,
    slot: u32,
    count: usize,
) -> Result<Groups, NoMemory>
    requires own { hold.old.id ≡ cells.now }
    requires slot { slot ≡ hold.old.token.slot }
    requires known { are_words hold.old.token.words ≡ true }
    requires count { count ≡ group_count (slice_index hold.old.token.words FLAGS) }
    ensures groups { IfOk result (λ g. g ≡ (credential_in hold.old.token.words).groups) }
    ensures same { hold.new ≡ hold.old }
{
    let mut ids = Vec::with_capacity(alloc, count)?;
    for place in 0..count {
        let word = load_word(cells, hold, slot, GROUPS + place / 2);
        ids.push(group_from_valid(word, place))?;
    }
    Ok(Groups::from_sorted(ids))
}

/// The credential of the slot that is held, whose words are a credential's. Those past its groups
/// are known to be 0, and are not loaded.
pub(crate) fn read_whole(
    alloc: Global,
    cells: &Cells,
    hold: &mut HoldSeat,
    slot: u32,
) -> Result<Cred, NoMemory>
    requires own { hold.old.id ≡ cells.now }
    requires slot { slot ≡ hold.old.token.slot }
    requires known { are_words hold.old.token.words ≡ true }
    ensures cred { IfOk result (λ c. c ≡ credential_in hold.old.token.words) }
    ensures same { hold.new ≡ hold.old }
{
    let first = gather::<GROUPS>(cells, hold, slot, 0);
    let count = group_count(first[FLAGS]);
    let groups = groups_of(alloc, cells, hold, slot, count)?;
    Ok(head_from_valid(&first, groups))
}

/// `N` words of a sealed slot, from `first` on, by a hold that is lent and comes back. What else is
/// lent stays.
pub(crate) fn load_sealed<const N: usize>(
    master: &mut MasterSeat,
    cells: &Cells,
    slot: u32,
    first: usize,
) -> [u64; N]
    requires own { master.old.id ≡ cells.now }
    requires empty { master.old.ledger.kept ≡ None }
    requires sealed { IsSealedSlot master.old.ledger slot }
    requires wide { length (words_at master.old.ledger.slots slot) ≡ width }
    requires within { first + N ≤ width }
    ensures words { result ≡ take N (drop first (words_at master.old.ledger.slots slot)) }
    ensures same { (master.new.id ≡ master.old.id)
        × IsAgain master.old.ledger master.new.ledger }
{
    let mut hold = master.lend_hold(cells, 0, slot);
    let words = gather::<N>(cells, &mut hold, slot, first);
    master.return_hold(cells, hold);
    master.load_after_return(cells, false);
    words
}

/// The credential of a sealed slot whose words are a credential's, by a hold that is lent and comes
/// back. What else is lent stays.
pub(crate) fn read_sealed(
    alloc: Global,
    master: &mut MasterSeat,
    cells: &Cells,
    slot: u32,
) -> Result<Cred, NoMemory>
    requires own { master.old.id ≡ cells.now }
    requires empty { master.old.ledger.kept ≡ None }
    requires sealed { IsSealedSlot master.old.ledger slot }
    requires known { are_words (words_at master.old.ledger.slots slot) ≡ true }
    ensures cred { IfOk result
        (λ c. c ≡ credential_in (words_at master.old.ledger.slots slot)) }
    ensures same { (master.new.id ≡ master.old.id)
        × IsAgain master.old.ledger master.new.ledger }
{
    let mut hold = master.lend_hold(cells, 0, slot);
    let cred = read_whole(alloc, cells, &mut hold, slot);
    master.return_hold(cells, hold);
    master.load_after_return(cells, false);
    cred
}

/// Stores 0 in the words of the slot that is written, from `first` on and before `last`. From the
/// later of the two on they are 0 already.
pub(crate) fn clear(cells: &Cells, writer: &mut WriterSeat, slot: u32, first: usize, last: usize)
    requires own { writer.old.id ≡ cells.now }
    requires slot { slot ≡ writer.old.token.slot }
    requires wide { length writer.old.token.words ≡ width }
    requires within { last ≤ width }
    requires rest { (i : ℕ) → first ≤ i → last ≤ i → slice_index writer.old.token.words i ≡ 0 }
    ensures same { (writer.new.id ≡ writer.old.id)
        × (writer.new.token ≡ put_words writer.old.token writer.new.token.words) }
    ensures words { (length writer.new.token.words ≡ width)
        × (take first writer.new.token.words ≡ take first writer.old.token.words)
        × AreZeros first writer.new.token.words }
{
    for i in first..last {
        settle_word(cells, writer, slot, i, 0);
    }
}

/// Puts a credential in the slot that is written, whose words are a credential's: of the words past
/// the new groups only those that have old ones are cleared.
pub(crate) fn scatter(cells: &Cells, writer: &mut WriterSeat, slot: u32, cred: &Cred)
    requires own { writer.old.id ≡ cells.now }
    requires slot { slot ≡ writer.old.token.slot }
    requires known { are_words writer.old.token.words ≡ true }
    ensures { (writer.new.id ≡ writer.old.id)
        × (writer.new.token ≡ put_words writer.old.token (words_of cred.now)) }
{
    let flags = load_own_word(cells, writer, slot, FLAGS);
    let count = group_count(flags);
    let first = head(cred);
    for place in 0..GROUPS {
        settle_word(cells, writer, slot, place, first[place]);
    }
    let end = words_of_groups(cred);
    for i in 0..end {
        settle_word(cells, writer, slot, GROUPS + i, word_of_groups(cred, i));
    }
    clear(
        cells,
        writer,
        slot,
        GROUPS + end,
        GROUPS + count.div_ceil(2),
    );
}

/// Puts the credential of a head in the slot that is written, whose words are a credential's: of
/// the words past it only those that have old groups are cleared.
#[inline(always)]
pub(crate) fn scatter_head(cells: &Cells, writer: &mut WriterSeat, slot: u32, head: &Head)
    requires own { writer.old.id ≡ cells.now }
    requires slot { slot ≡ writer.old.token.slot }
    requires known { are_words writer.old.token.words ≡ true }
    ensures { (writer.new.id ≡ writer.old.id)
        × (writer.new.token ≡ put_words writer.old.token (words_of head.now)) }
{
    head.is_credential();
    let before = group_count(load_own_word(cells, writer, slot, FLAGS));
    for i in 0..GROUPS {
        settle_word(cells, writer, slot, i, head.word(i));
    }
    clear(cells, writer, slot, GROUPS, GROUPS + before.div_ceil(2));
}

/// Whether the credential that is held is the one of a head: whether it has these words, each of
/// which is loaded at a moment of its own.
#[inline(always)]
pub(crate) fn is_head(cells: &Cells, hold: &mut HoldSeat, slot: u32, head: &Head) -> bool
    requires own { hold.old.id ≡ cells.now }
    requires slot { slot ≡ hold.old.token.slot }
    requires known { are_words hold.old.token.words ≡ true }
    ensures value { IsTrue result ↔ credential_in hold.old.token.words ≡ head.now }
    ensures same { hold.new ≡ hold.old }
{
    head.is_credential();
    for i in 0..GROUPS {
        if load_word(cells, hold, slot, i) != head.word(i) {
            return false;
        }
    }
    true
}

/// Whether the credential of a sealed slot whose words are a credential's is the one of a head, by
/// a hold that is lent and comes back. What else is lent stays.
#[inline(always)]
pub(crate) fn is_sealed_head(master: &mut MasterSeat, cells: &Cells, slot: u32, head: &Head) -> bool
    requires own { master.old.id ≡ cells.now }
    requires empty { master.old.ledger.kept ≡ None }
    requires sealed { IsSealedSlot master.old.ledger slot }
    requires known { are_words (words_at master.old.ledger.slots slot) ≡ true }
    ensures value { IsTrue result
        ↔ credential_in (words_at master.old.ledger.slots slot) ≡ head.now }
    ensures same { (master.new.id ≡ master.old.id)
        × IsAgain master.old.ledger master.new.ledger }
{
    let mut hold = master.lend_hold(cells, 0, slot);
    let is = is_head(cells, &mut hold, slot, head);
    master.return_hold(cells, hold);
    master.load_after_return(cells, false);
    is
}
