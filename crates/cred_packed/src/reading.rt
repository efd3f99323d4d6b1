//! A credential read from words.
ghost use Rattle.std.specs.Prelude.{◌≡◌, ◌↔◌, IsTrue, ◌<◌, ◌≤◌, ◌-◌, ◌*◌, ◌/◌, ◌%◌, ◌^◌};
ghost use Rattle.std.specs.Prelude.{Some, true, ℕ, IfOk, IfSome, IfNone, take, drop, slice_index};
ghost use Rattle.std.specs.Option.{SomeIff};
ghost use Rattle.cred_ids.specs.Id.{IsId};
ghost use Rattle.cred_record.specs.Credential.{Credential, AreValidSets};
ghost use Rattle.cred_record.specs.Words.{are_ids, ids_of, unpaired, IsCredential, words_of};
ghost use Rattle.cred_record.specs.Words.{credential_in, are_words, group_count, half, AreSetsOf};

use crate::writing::to_words;
use cred_caps::{CapSet, SecureBits};
use cred_ids::{Groups, GroupsRefusal, Id, Ids4, NoMemory, limits};
use cred_record::layout::{
    AMBIENT, BOUNDING, EFFECTIVE, FLAGS, GROUP, GROUPS, INHERITABLE, NAMESPACE, PERMITTED, ROOT,
    SAVED_GROUP, SAVED_USER, USER,
};
use cred_record::{Cred, WORDS, is_credential};
use std::alloc::Global;

/// The low half of a word.
fn low(word: u64) -> u32
    ensures { result ≡ word % 2 ^ 32 }
{
    (word & 0xffff_ffff) as u32
}

/// The high half of a word.
fn high(word: u64) -> u32
    ensures { result ≡ word / 2 ^ 32 }
{
    (word >> 32) as u32
}

/// The ids in two words, as `USER` and `SAVED_USER` or `GROUP` and `SAVED_GROUP` hold them. `None`
/// exactly where one of the four is 4294967295.
pub fn ids_in(first: u64, second: u64) -> Option<Ids4>
    ensures { SomeIff result (are_ids (ids_of first second) ≡ true) (ids_of first second) }
{
    Some(Ids4 {
        real: Id::new(low(first))?,
        effective: Id::new(high(first))?,
        saved: Id::new(low(second))?,
        fs: Id::new(high(second))?,
    })
}

/// The ids in two words that are known to have them, as `ids_in` reads them.
#[inline(always)]
pub fn ids_from_valid_words(first: u64, second: u64) -> Ids4
    requires { are_ids (ids_of first second) ≡ true }
    ensures { result ≡ ids_of first second }
{
    Ids4 {
        real: Id::from_valid(low(first)),
        effective: Id::from_valid(high(first)),
        saved: Id::from_valid(low(second)),
        fs: Id::from_valid(high(second)),
    }
}

/// How many groups there are, by the word of flags.
pub fn group_count(flags: u64) -> usize
    ensures { result ≡ group_count flags }
{
    (flags >> 16) as usize
}

/// The number at a place among those in words that hold two each, by the word where it stands.
fn half(word: u64, place: usize) -> u32
    ensures { result ≡ half word place }
{
    if place % 2 == 0 {
        low(word)
    } else {
        high(word)
    }
}

/// The group at a place, by the word where it stands with another. `None` exactly where that number
/// is 4294967295.
pub fn group_in(word: u64, place: usize) -> Option<Id>
    ensures { SomeIff result (IsId (half word place)) (half word place) }
{
    Id::new(half(word, place))
}

/// The group at a place that is known to have one, by the word where it stands with another.
#[inline(always)]
pub fn group_from_valid(word: u64, place: usize) -> Id
    requires { IsId (half word place) }
    ensures { result ≡ half word place }
{
    Id::from_valid(half(word, place))
}

/// The first `count` ids in the words of groups. `None` where one of these numbers is no id.
fn group_ids(alloc: Global, words: &[u64; WORDS], count: usize) -> Result<Option<Vec<Id>>, NoMemory>
    requires { count ≤ 2 * (WORDS - GROUPS) }
    ensures some { IfOk result (λ o. IfSome o
        (λ ids. ids.items ≡ take count (unpaired (drop GROUPS words.now)))) }
    ensures none { IfOk result (λ o. IfNone o ((place : ℕ) × (place < count)
        × (¬ (IsId (slice_index (unpaired (drop GROUPS words.now)) place))))) }
{
    let mut ids = Vec::with_capacity(alloc, count)?;
    for place in 0..count {
        let Some(id) = group_in(words[GROUPS + place / 2], place) else {
            return Ok(None);
        };
        ids.push(id)?;
    }
    Ok(Some(ids))
}

/// The groups, in order. `None` only where the words are no credential's.
fn groups_in(alloc: Global, words: &[u64; WORDS]) -> Result<Option<Groups>, NoMemory>
    ensures some { IfOk result (λ o. IfSome o
        (λ g. are_words words.now ≡ true → g ≡ (credential_in words.now).groups)) }
    ensures none { IfOk result (λ o. IfNone o (¬ (are_words words.now ≡ true))) }
{
    let count = group_count(words[FLAGS]);
    if count > limits::GROUP_LIMIT {
        return Ok(None);
    }
    let Some(ids) = group_ids(alloc, words, count)? else {
        return Ok(None);
    };
    match Groups::from_list(alloc, ids.as_slice()) {
        Ok(groups) => Ok(Some(groups)),
        Err(GroupsRefusal::TooMany(_)) => Ok(None),
        Err(GroupsRefusal::Memory) => Err(NoMemory),
    }
}

/// The five sets of a credential.
#[derive(Clone, Copy)]
struct FiveSets {
    perm: CapSet,
    inh: CapSet,
    eff: CapSet,
    bound: CapSet,
    amb: CapSet,
}

/// Whether the sets are those of a credential (capabilities(7), "Thread capability sets").
fn are_valid(sets: &FiveSets) -> bool
    ensures { IsTrue result ↔ AreValidSets sets.now.perm sets.now.inh sets.now.eff sets.now.amb }
{
    sets.eff.within(&sets.perm) && sets.amb.within(&sets.perm) && sets.amb.within(&sets.inh)
}

/// The sets. `None` only where the words before those of groups are no credential's.
fn sets_in(head: &[u64; GROUPS]) -> Option<FiveSets>
    ensures some { IfSome result (λ s. AreSetsOf head.now s.perm s.inh s.eff s.bound s.amb) }
    ensures none { IfNone result (¬ (IsCredential (credential_in head.now))) }
{
    let sets = FiveSets {
        perm: CapSet::of_bits(head[PERMITTED])?,
        inh: CapSet::of_bits(head[INHERITABLE])?,
        eff: CapSet::of_bits(head[EFFECTIVE])?,
        bound: CapSet::of_bits(head[BOUNDING])?,
        amb: CapSet::of_bits(head[AMBIENT])?,
    };
    if are_valid(&sets) { Some(sets) } else { None }
}

/// The securebits.
fn bits_in(word: u64) -> Option<SecureBits>
    ensures { result ≡ Some (word % 2 ^ 8) }
{
    SecureBits::new((word & 0xff) as u32)
}

/// The securebits in the word of flags.
pub fn secure_bits(flags: u64) -> SecureBits
    ensures { result ≡ flags % 2 ^ 8 }
{
    let Some(bits) = bits_in(flags) else {
        unreachable!()
    };
    bits
}

/// The number of the namespace.
fn namespace_in(word: u64) -> Option<u32>
    ensures { SomeIff result (word < 2 ^ 32) word }
{
    u32::try_from(word).ok()
}

/// The user id of root. `None` exactly where the word is no id.
fn root_in(word: u64) -> Option<Id>
    ensures { SomeIff result (IsId word) word }
{
    Id::new(u32::try_from(word).ok()?)
}

/// The credential of these groups whose words before those of groups are given. `None` only where
/// these are no credential's. What the layout leaves out is not looked at.
fn cred_in(head: &[u64; GROUPS], groups: Groups) -> Option<Cred>
    ensures some { IfSome result
        (λ c. c ≡ record (credential_in head.now) { groups = groups }) }
    ensures none { IfNone result (¬ (IsCredential (credential_in head.now))) }
{
    let sets = sets_in(head)?;
    Some(Cred {
        uid: ids_in(head[USER], head[SAVED_USER])?,
        gid: ids_in(head[GROUP], head[SAVED_GROUP])?,
        groups,
        perm: sets.perm,
        inh: sets.inh,
        eff: sets.eff,
        bound: sets.bound,
        amb: sets.amb,
        bits: bits_in(head[FLAGS])?,
        nnp: head[FLAGS] >> 8 & 1 == 1,
        ns: namespace_in(head[NAMESPACE])?,
        root: root_in(head[ROOT])?,
    })
}

/// The words before those of groups.
fn head_of(words: &[u64; WORDS]) -> [u64; GROUPS]
    ensures { result ≡ take GROUPS words.now }
{
    let mut head = [0; GROUPS];
    head.copy_from_slice(&words[..GROUPS]);
    head
}

/// The credential of the words. `None` exactly where they are no credential's: where an id, a group
/// or root's id is 4294967295, a set has a bit above 40, the sets are not those of a credential,
/// the groups are not sorted or are more than 1,024, or a bit is set that the layout leaves out.
///
/// # Errors
///
/// `NoMemory` if the allocation of the groups fails.
pub fn of_words(alloc: Global, words: &[u64; WORDS]) -> Result<Option<Cred>, NoMemory>
    ensures value { IfOk result (λ o. IfSome o
        (λ c. IsCredential c × (words_of c ≡ words.now))) }

    // No words of a credential are refused, or read as another.
    ensures each_value { (c : Credential) → IsCredential c → words.now ≡ words_of c →
        IfOk result (λ o. o ≡ Some c) }
{
    let Some(groups) = groups_in(alloc, words)? else {
        return Ok(None);
    };
    let Some(cred) = cred_in(&head_of(words), groups) else {
        return Ok(None);
    };
    is_credential(&cred);
    if to_words(&cred) == *words {
        Ok(Some(cred))
    } else {
        Ok(None)
    }
}

/// The credential of these groups whose words before those of groups are given, and are known to be
/// a credential's.
pub fn head_from_valid(head: &[u64; GROUPS], groups: Groups) -> Cred
    requires { IsCredential (credential_in head.now) }
    ensures { result ≡ record (credential_in head.now) { groups = groups } }
{
    Cred {
        uid: ids_from_valid_words(head[USER], head[SAVED_USER]),
        gid: ids_from_valid_words(head[GROUP], head[SAVED_GROUP]),
        groups,
        perm: CapSet::from_valid(head[PERMITTED]),
        inh: CapSet::from_valid(head[INHERITABLE]),
        eff: CapSet::from_valid(head[EFFECTIVE]),
        bound: CapSet::from_valid(head[BOUNDING]),
        amb: CapSet::from_valid(head[AMBIENT]),
        bits: secure_bits(head[FLAGS]),
        nnp: head[FLAGS] >> 8 & 1 == 1,
        ns: head[NAMESPACE] as u32,
        root: Id::from_valid(head[ROOT] as u32),
    }
}
