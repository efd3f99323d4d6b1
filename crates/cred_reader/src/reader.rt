//! An entry, read from its text.
ghost use Rattle.std.specs.Prelude.{◌≡◌, ◌<◌, ◌+◌, IfOk, IfSome, Some, drop, length, position};
ghost use Rattle.std.specs.Prelude.{take, true};
ghost use Rattle.cred_event.specs.declared.entry.Entry.{Entry as SeenEntry};
ghost use Rattle.cred_spelling.specs.Read.{nows};
ghost use Rattle.cred_grammar.specs.ReadAnswers.{GivesLine};
ghost use Rattle.cred_report.specs.Text.{entry_text};
ghost use Rattle.cred_reader.specs.Entry as spec;
ghost use Rattle.cred_reader.specs.Fits.{Fits, IsSoundEntry};

use crate::answers::{read_answer, told_by};
use crate::events::read_event;
use crate::fits::is_of;
use cred_answers::can_answer;
use cred_event::Entry;
use cred_grammar::LineRefusal;
use cred_ids::NoMemory;
use cred_report::print;
use cred_script::Script;
use cred_spelling::{Number, Reason, is, split_into, word};
use std::alloc::Global;

/// The entry that this line of a report is the text of, with its LF; none where no entry that fits
/// the script has that text. What the words say is printed again and compared with the line: so
/// digits too many, a space too many and words that say nothing of a value need no test of their
/// own.
///
/// # Errors
///
/// `NoMemory` if an allocation for the words, the entry or its text fails.
pub fn read(alloc: Global, script: &Script, line: &[u8]) -> Result<Option<Entry>, NoMemory>
    ensures value { IfOk result (λ found. IfSome found
        (λ entry. (entry_text script.now entry ≡ line.now) × Fits script.now entry)) }
    ensures each_value { (entry : SeenEntry) → Fits script.now entry
        → entry_text script.now entry ≡ line.now → IfOk result (λ found. found ≡ Some entry) }
{
    let mut words = Vec::new(alloc);
    split_into(&mut words, body_of(line))?;
    match read_entry(alloc, script, &words) {
        Ok(entry) => confirm(alloc, script, line, entry),
        Err(LineRefusal::Bad(_)) => Ok(None),
        Err(LineRefusal::Memory) => Err(NoMemory),
    }
}

/// The line without its last byte, which is LF in the text of an entry.
fn body_of(line: &[u8]) -> &[u8]
    ensures { result.now ≡ spec.body_of line.now }
{
    &line[..line.len().saturating_sub(1)]
}

/// The entry, if it is one of the script's and the line is its text.
fn confirm(
    alloc: Global,
    script: &Script,
    line: &[u8],
    entry: Entry,
) -> Result<Option<Entry>, NoMemory>
    ensures value { IfOk result (λ found. IfSome found (λ e. (e ≡ entry)
        × (entry_text script.now entry ≡ line.now) × IsSoundEntry script.now entry)) }
    ensures each_value { IsSoundEntry script.now entry → entry_text script.now entry ≡ line.now
        → IfOk result (λ found. found ≡ Some entry) }
{
    match is_confirmed(alloc, script, line, &entry) {
        Ok(true) => Ok(Some(entry)),
        Ok(false) => {
            drop(entry);
            Ok(None)
        }
        Err(NoMemory) => {
            drop(entry);
            Err(NoMemory)
        }
    }
}

/// Whether the entry is one of the script's and the line is its text.
fn is_confirmed(
    alloc: Global,
    script: &Script,
    line: &[u8],
    entry: &Entry,
) -> Result<bool, NoMemory>
    ensures sound { IfOk result (λ confirmed. confirmed ≡ true
        → (entry_text script.now entry.now ≡ line.now) × IsSoundEntry script.now entry.now) }
    ensures each { IsSoundEntry script.now entry.now → entry_text script.now entry.now ≡ line.now
        → IfOk result (λ confirmed. confirmed ≡ true) }
{
    if !is_of(script, &entry.event) || !can_answer(&entry.event, &entry.answer) {
        return Ok(false);
    }
    let text = print(alloc, script, entry)?;
    Ok(text.items() == line)
}

/// The number of a line, an event, the arrow and an answer.
#[tactic(auto, unfolding(crate::specs::Entry::read_entry))]
fn read_entry(alloc: Global, script: &Script, words: &[&[u8]]) -> Result<Entry, LineRefusal>
    ensures { GivesLine (λ entry. entry) result
        (spec.read_entry script.now.files (nows words.now)) }
{
    match words {
        [number, words @ ..] => {
            let line = word::<Number>(number)?;
            let place = arrow(words).ok_or(Reason::Word)?;
            let event = read_event(alloc, script, words_before(words, place))?;
            let answer = read_answer(alloc, told_by(&event), words_after(words, place))?;
            Ok(Entry {
                line,
                event,
                answer,
            })
        }
        [] => Err(LineRefusal::Bad(Reason::Count)),
    }
}

/// Where the arrow between an event and its answer stands.
fn arrow(words: &[&[u8]]) -> Option<usize>
    ensures place { result ≡ position spec.is_arrow (nows words.now) }
    ensures within { IfSome result (λ place. place < length words.now) }
{
    words.iter().position(|word| is(word, "->"))
}

/// The words before a place.
fn words_before<'b>(words: &'b [&'b [u8]], place: usize) -> &'b [&'b [u8]]
    requires { place < length words.now }
    ensures { nows result.now ≡ take place (nows words.now) }
{
    &words[..place]
}

/// The words after a place.
fn words_after<'b>(words: &'b [&'b [u8]], place: usize) -> &'b [&'b [u8]]
    requires { place < length words.now }
    ensures { nows result.now ≡ drop (place + 1) (nows words.now) }
{
    &words[place + 1..]
}
