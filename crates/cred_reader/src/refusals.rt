//! Refusals: their text says which one it is, whatever the event.
ghost use Rattle.std.specs.Prelude.{◌≡◌};
ghost use Rattle.cred_spelling.specs.Read.{Says, nows};
ghost use Rattle.cred_reader.specs.Answers as spec;

use crate::kinds::{CredWord, LabelWord, TaskWord};
use cred_event::{AbortCause, Answer, Counted, Named};
use cred_spelling::{Number, Reason, is, named, two, word};

/// A refusal of one word.
fn one_word(word: &[u8]) -> Option<Answer>
    ensures { result ≡ spec.one_word word.now }
{
    if is(word, "eperm") {
        return Some(Answer::Eperm);
    }
    if is(word, "einval") {
        return Some(Answer::Einval);
    }
    if is(word, "eacces") {
        return Some(Answer::Eacces);
    }
    if is(word, "ebadf") {
        return Some(Answer::Ebadf);
    }
    None
}

/// What kind of thing exists already, by its letter.
fn what_of(byte: u8) -> Option<Named>
    ensures { result ≡ spec.what_of byte }
{
    match byte {
        b't' => Some(Named::Task),
        b'p' => Some(Named::Process),
        b'h' => Some(Named::Label),
        b'f' => Some(Named::File),
        b'k' => Some(Named::Broadcast),
        _ => None,
    }
}

/// What exists already.
#[tactic(auto, unfolding(crate::specs::Answers::exists_of))]
fn exists_of(text: &[u8]) -> Result<Answer, Reason>
    ensures { Says (λ answer. answer) result (spec.exists_of text.now) }
{
    match text {
        [first, digits @ ..] => {
            let what = what_of(*first).ok_or(Reason::Word)?;
            let number = word::<Number>(digits)?;
            Ok(Answer::Exists { what, number })
        }
        [] => Err(Reason::Word),
    }
}

/// A refusal of two words.
#[tactic(auto, unfolding(crate::specs::Answers::two_words))]
fn two_words(a: &[u8], b: &[u8]) -> Result<Answer, Reason>
    ensures { Says (λ answer. answer) result (spec.two_words a.now b.now) }
{
    if is(a, "busy") {
        return Ok(Answer::Busy(word::<Number>(b)?));
    }
    if is(a, "exists") {
        return exists_of(b);
    }
    if is(a, "overridden") {
        return Ok(Answer::Overridden(word::<Number>(b)?));
    }
    if is(a, "not") {
        return Ok(Answer::NotOverridden);
    }
    if is(a, "too") {
        return Ok(Answer::TooDeep);
    }
    if is(a, "table") {
        return Ok(Answer::TableFull);
    }
    Err(Reason::Word)
}

/// What isn't there.
#[tactic(auto, unfolding(crate::specs::Answers::no_of))]
fn no_of(what: &[u8], text: &[u8]) -> Result<Answer, Reason>
    ensures { Says (λ answer. answer) result (spec.no_of what.now text.now) }
{
    if is(what, "task") {
        return Ok(Answer::NoTask(word::<TaskWord>(text)?));
    }
    if is(what, "hold") {
        return Ok(Answer::NoHold(word::<LabelWord>(text)?));
    }
    if is(what, "prepared") {
        return Ok(Answer::NoPrepared(word::<LabelWord>(text)?));
    }
    if is(what, "broadcast") {
        return Ok(Answer::NoBroadcast(word::<Number>(text)?));
    }
    Err(Reason::Word)
}

static COUNTED: [(&str, Counted); 4] = [
    ("tasks", Counted::Tasks),
    ("files", Counted::Files),
    ("holds", Counted::Holds),
    ("prepared", Counted::Prepared),
];

/// What there are too many of.
#[tactic(auto, unfolding(crate::specs::Answers::counted_names))]
fn counted_of(word: &[u8]) -> Option<Counted>
    ensures { result ≡ spec.counted_of word.now }
{
    named(&COUNTED, word)
}

static CAUSES: [(&str, AbortCause); 2] = [("eperm", AbortCause::Perm), ("full", AbortCause::Full)];

/// Why a thread could not follow.
#[tactic(auto, unfolding(crate::specs::Answers::cause_names))]
fn cause_of(word: &[u8]) -> Option<AbortCause>
    ensures { result ≡ spec.cause_of word.now }
{
    named(&CAUSES, word)
}

/// A refusal of three words.
#[tactic(auto, unfolding(crate::specs::Answers::three_words))]
fn three_words(a: &[u8], b: &[u8], c: &[u8]) -> Result<Answer, Reason>
    ensures { Says (λ answer. answer) result (spec.three_words a.now b.now c.now) }
{
    if is(a, "no") {
        return no_of(b, c);
    }
    if is(a, "stale") {
        let (base, now) = two::<CredWord, CredWord>(&[b, c])?;
        return Ok(Answer::Stale { base, now });
    }
    if is(a, "too") {
        return Ok(Answer::TooMany(counted_of(c).ok_or(Reason::Word)?));
    }
    if is(a, "aborted") {
        let task = word::<TaskWord>(b)?;
        let cause = cause_of(c).ok_or(Reason::Word)?;
        return Ok(Answer::Aborted { task, cause });
    }
    Err(Reason::Word)
}

/// A refusal.
///
/// # Errors
///
/// The reason where the words are no refusal.
#[tactic(auto, unfolding(crate::specs::Answers::read_refusal))]
pub(crate) fn read_refusal(words: &[&[u8]]) -> Result<Answer, Reason>
    ensures { Says (λ answer. answer) result (spec.read_refusal (nows words.now)) }
{
    match words {
        [a] => one_word(a).ok_or(Reason::Word),
        [a, b] => two_words(a, b),
        [a, b, c] => three_words(a, b, c),
        _ => Err(Reason::Count),
    }
}
