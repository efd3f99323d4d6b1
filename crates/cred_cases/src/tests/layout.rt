//! A credential as words, and the words that are none.
use crate::tests::parts::{ALL, id};
use cred_caps::SecureBits;
use cred_ids::{Groups, Id, NoMemory, limits};
use cred_packed::{of_words, to_words};
use cred_record::layout::{AMBIENT, FLAGS, GROUPS, NAMESPACE, PERMITTED, ROOT, SAVED_GROUP, USER};
use cred_record::{Cred, WORDS, first};
use std::alloc::Global;
use std::test::Fail;

/// The first credential of a namespace's root, with all parts of the layout set.
fn with_groups(alloc: Global, groups: &[Id]) -> Result<Cred, Fail> {
    let effective = id(1000)?;
    let bits = SecureBits::new(0x2f).ok_or("no bits")?;
    let groups = Groups::from_list(alloc, groups).map_err(|_| "no groups")?;
    let mut cred = first(alloc, id(100000)?, id(7)?, 3, id(100000)?)?;
    cred.uid.effective = effective;
    cred.bits = bits;
    cred.nnp = true;
    cred.groups = groups;
    Ok(cred)
}

/// The words of that credential.
fn words_with(alloc: Global, groups: &[Id]) -> Result<[u64; WORDS], Fail> {
    let cred = with_groups(alloc, groups)?;
    let words = to_words(&cred);
    drop(cred);
    Ok(words)
}

/// The first words of that credential with the groups 5, 4 and 9. The others are 0.
const LAID_OUT: [u64; 14] = [
    1000 << 32 | 100000,
    100000 << 32 | 100000,
    0x7_0000_0007,
    0x7_0000_0007,
    ALL,
    0,
    ALL,
    ALL,
    0,
    0x3_012f,
    3,
    100000,
    0x5_0000_0004,
    9,
];

/// Whether these are the words of that credential.
fn are_laid_out(words: &[u64; WORDS]) -> bool {
    for (place, word) in words.iter().enumerate() {
        if *word != LAID_OUT.get(place).copied().unwrap_or(0) {
            return false;
        }
    }
    true
}

/// Whether the credential of the words is that one.
fn are_read_again(alloc: Global, words: &[u64; WORDS]) -> Result<bool, NoMemory> {
    let Some(cred) = of_words(alloc, words)? else {
        return Ok(false);
    };
    let is_same = are_laid_out(&to_words(&cred));
    drop(cred);
    Ok(is_same)
}

#[test]
fn words_have_the_layout_and_are_read_again(rt: HostRuntime) -> Result<(), Fail> {
    let words = words_with(rt.alloc(), &[id(5)?, id(4)?, id(9)?])?;
    assert!(rt; are_laid_out(&words));
    let is_read = are_read_again(rt.alloc(), &words)?;
    assert!(rt; is_read);
    Ok(())
}

/// The words of that credential with as many groups as one may have, each of which is group 8.
fn most_words(alloc: Global) -> Result<[u64; WORDS], Fail> {
    let groups = vec![in alloc; id(8)?; limits::GROUP_LIMIT]?;
    let words = words_with(alloc, groups.as_slice());
    drop(groups);
    words
}

#[test]
fn the_last_group_stands_in_the_last_word(rt: HostRuntime) -> Result<(), Fail> {
    let most = most_words(rt.alloc())?;
    assert_eq!(rt; most[GROUPS + limits::GROUP_LIMIT / 2 - 1], 0x8_0000_0008);
    let is_one = is_credential(rt.alloc(), &most)?;
    assert!(rt; is_one);
    Ok(())
}

/// Words that stand in their places of no credential with the groups 4 and 5.
const OTHERS: [(usize, u64); 13] = [
    (USER, 0xffff_ffff),
    (SAVED_GROUP, 0xffff_ffff_0000_0000),
    (PERMITTED, 0x3ff_ffff_ffff),
    (PERMITTED, 0),
    (AMBIENT, 1),
    (FLAGS, 0x2_032f),
    (FLAGS, 0x401_012f),
    (NAMESPACE, 1 << 32),
    (ROOT, 0xffff_ffff),
    (ROOT, 1 << 32 | 100000),
    (GROUPS, 0x4_0000_0005),
    (GROUPS, 0xffff_ffff_0000_0004),
    (GROUPS + 1, 1),
];

/// Whether the words are a credential's.
fn is_credential(alloc: Global, words: &[u64; WORDS]) -> Result<bool, NoMemory> {
    let cred = of_words(alloc, words)?;
    let is_some = cred.is_some();
    drop(cred);
    Ok(is_some)
}

#[test]
fn other_words_are_no_credential(rt: HostRuntime) -> Result<(), Fail> {
    let words = words_with(rt.alloc(), &[id(4)?, id(5)?])?;
    let is_one = is_credential(rt.alloc(), &words)?;
    assert!(rt; is_one);
    for (place, word) in OTHERS {
        let mut other = words;
        assert!(rt; place < WORDS);
        other[place] = word;
        let is_one = is_credential(rt.alloc(), &other)?;
        assert!(rt; !is_one, "{word} at {place}");
    }
    Ok(())
}
