//! A credential laid out in words.
ghost use Rattle.std.specs.Prelude.{◌≡◌, ◌<◌, ◌≤◌, ◌+◌, ◌-◌, ◌*◌, length, replicate, take};
ghost use Rattle.std.specs.Prelude.{slice_index, ◌%◌, ◌^◌};
ghost use Rattle.cred_ids.specs.Limits.{GROUP_LIMIT};
ghost use Rattle.cred_record.specs.Words.{pair, flags_word, words_of};

use cred_ids::{Groups, Id, Ids4};
use cred_record::layout::GROUPS;
use cred_record::{Cred, WORDS};

/// Two numbers in one word, the first in its low half.
fn pair(low: u32, high: u32) -> u64
    ensures { result ≡ pair low high }
{
    u64::from(high) << 32 | u64::from(low)
}

/// The word with two ids.
fn ids(low: Id, high: Id) -> u64
    ensures { result ≡ pair low high }
{
    pair(low.number(), high.number())
}

/// The two words with the four ids of a kind, as `USER` and `SAVED_USER` or `GROUP` and
/// `SAVED_GROUP` hold them.
pub fn id_words(four: &Ids4) -> (u64, u64)
    ensures { (result.0 ≡ pair four.now.real four.now.effective)
        × (result.1 ≡ pair four.now.saved four.now.fs) }
{
    (ids(four.real, four.effective), ids(four.saved, four.fs))
}

/// The group at a place, and 0 where there is none.
fn group_or_zero(groups: &Groups, place: usize) -> u32
    ensures { result ≡ slice_index groups.now place }
{
    match groups.at(place) {
        Some(group) => group.number(),
        None => 0,
    }
}

/// The word with the securebits, no_new_privs and the number of groups.
fn flags(cred: &Cred) -> u64
    ensures { result ≡ flags_word cred.now }
{
    let bits = u64::from(cred.nnp) << 8 | u64::from(cred.bits.number());
    (cred.groups.len() as u64) << 16 | bits
}

/// The word of flags with another number of groups.
pub fn flags_with(flags: u64, count: usize) -> u64
    requires { count ≤ GROUP_LIMIT }
    ensures { result ≡ count * 2 ^ 16 + flags % 2 ^ 16 }
{
    (count as u64) << 16 | (flags & 0xffff)
}

/// The words before those of groups, in the order of `layout`'s places.
#[tactic(auto, unfolding(cred_record::specs::Words::words_of))]
pub fn head(cred: &Cred) -> [u64; GROUPS]
    ensures { result ≡ take GROUPS (words_of cred.now) }
{
    [
        ids(cred.uid.real, cred.uid.effective),
        ids(cred.uid.saved, cred.uid.fs),
        ids(cred.gid.real, cred.gid.effective),
        ids(cred.gid.saved, cred.gid.fs),
        cred.perm.bits(),
        cred.inh.bits(),
        cred.eff.bits(),
        cred.bound.bits(),
        cred.amb.bits(),
        flags(cred),
        u64::from(cred.ns),
        u64::from(cred.root.number()),
    ]
}

/// The word `i` of those of these groups, with two groups, or one and 0.
pub fn group_word(groups: &Groups, i: usize) -> u64
    requires { i < WORDS - GROUPS }
    ensures { result ≡ pair (slice_index groups.now (2 * i)) (slice_index groups.now (2 * i + 1)) }
{
    let low = group_or_zero(groups, 2 * i);
    let high = group_or_zero(groups, 2 * i + 1);
    pair(low, high)
}

/// How many words the groups take: two groups stand in each.
pub fn words_of_groups(cred: &Cred) -> usize
    ensures value { (length cred.now.groups ≤ 2 * result)
        × (2 * result ≤ length cred.now.groups + 1) }
    ensures within { result ≤ WORDS - GROUPS }
{
    cred.groups.len().div_ceil(2)
}

/// The word `i` of those of groups.
pub fn word_of_groups(cred: &Cred, i: usize) -> u64
    requires { i < WORDS - GROUPS }
    ensures { result ≡ slice_index (words_of cred.now) (GROUPS + i) }
{
    group_word(&cred.groups, i)
}

/// `N` words that are 0.
fn blank<const N: usize>() -> [u64; N]
    ensures { result ≡ replicate N 0 }
{
    [0; N]
}

/// The words of a credential. It takes no memory.
pub fn to_words(cred: &Cred) -> [u64; WORDS]
    ensures { result ≡ words_of cred.now }
{
    let mut words = blank::<WORDS>();
    words[..GROUPS].copy_from_slice(&head(cred));
    for i in 0..words_of_groups(cred) {
        words[GROUPS + i] = word_of_groups(cred, i);
    }
    words
}
