//! The answer that words are the text of, for an event.
ghost use Rattle.std.specs.Prelude.{◌≡◌};
ghost use Rattle.cred_spelling.specs.Read.{Says, nows};
ghost use Rattle.cred_grammar.specs.ReadAnswers.{GivesLine};
ghost use Rattle.cred_reader.specs.Answers as spec;

use crate::kinds::{CredWord, FlagWord, ModeWord, SecurebitsWord, SlotWord, TaskWord};
use crate::refusals::read_refusal;
use cred_caps::CapSet;
use cred_event::{Answer, Event, Query, Told};
use cred_grammar::{LineRefusal, ids};
use cred_ids::{Id, Ids4};
use cred_record::{Gains, IdList};
use cred_script::Script;
use cred_spelling::{Number, Reason, five, is, one, three, two, word};
use std::alloc::Global;

/// What an event asks for: how the words after `ok` are read.
#[derive(Clone, Copy)]
pub enum AnswerForm {
    /// It asks nothing, or whether something is allowed.
    Nothing,
    /// Ids of users, then of groups.
    Ids,
    /// Five sets of capabilities.
    Caps,
    /// A list of groups.
    Groups,
    /// Securebits, and a flag.
    Bits,
    /// A flag.
    Flag,
    /// How a file stands.
    File,
}

/// What the event asks for.
pub(crate) fn told_by(event: &Event) -> AnswerForm
    ensures { result ≡ spec.told_by event.now }
{
    match event {
        Event::Ask { query, .. } => query_tells(*query),
        Event::Dumped { .. } => AnswerForm::Flag,
        Event::Stat { .. } => AnswerForm::File,
        _ => AnswerForm::Nothing,
    }
}

fn query_tells(query: Query) -> AnswerForm
    ensures { result ≡ spec.query_tells query }
{
    match query {
        Query::Ids => AnswerForm::Ids,
        Query::Caps => AnswerForm::Caps,
        Query::Groups => AnswerForm::Groups,
        Query::Bits => AnswerForm::Bits,
        Query::Capable(_) | Query::Bset(_) | Query::AmbIs(_) => AnswerForm::Flag,
        Query::Check { .. } => AnswerForm::Nothing,
    }
}

/// Ids of users and ids of groups, four of each.
#[tactic(auto, unfolding(crate::specs::Answers::ids_told))]
fn ids_told(words: &[&[u8]]) -> Result<Answer, Reason>
    ensures { Says (λ answer. answer) result (spec.ids_told (nows words.now)) }
{
    match words {
        [a, b, c, words @ ..] => {
            let (real, effective, saved) = three::<Id, Id, Id>(&[*a, *b, *c])?;
            let (fs, group, effective_group, saved_group, fs_group) = five::<Id, Id, Id, Id, Id>(
                words,
            )?;
            Ok(Answer::Told(Told::Ids {
                uid: Ids4 {
                    real,
                    effective,
                    saved,
                    fs,
                },
                gid: Ids4 {
                    real: group,
                    effective: effective_group,
                    saved: saved_group,
                    fs: fs_group,
                },
            }))
        }
        _ => Err(Reason::Count),
    }
}

/// The task that followed a broadcast, its new credential, and how many are left.
#[tactic(auto, unfolding(crate::specs::Answers::acted))]
fn acted(words: &[&[u8]]) -> Result<Answer, Reason>
    ensures { Says (λ answer. answer) result (spec.acted (nows words.now)) }
{
    match words {
        [task, a, b, _left, number] => {
            let (task, cred) = two::<TaskWord, CredWord>(&[*task, *a])?;
            let (slot, left) = two::<SlotWord, Number>(&[*b, *number])?;
            Ok(Answer::Acted {
                task,
                cred,
                slot,
                left,
            })
        }
        _ => Err(Reason::Count),
    }
}

/// A sealed credential and its slot, and what came of it.
#[tactic(auto, unfolding(crate::specs::Answers::longest))]
fn longest(words: &[&[u8]]) -> Result<Answer, Reason>
    ensures { Says (λ answer. answer) result (spec.longest (nows words.now)) }
{
    match words {
        [a, b, _left, number] => {
            let (cred, slot, left) = three::<CredWord, SlotWord, Number>(&[*a, *b, *number])?;
            Ok(Answer::Began { cred, slot, left })
        }
        [a, b, _ended, number, _gain, words @ ..] => {
            let (cred, slot, ended) = three::<CredWord, SlotWord, Number>(&[*a, *b, *number])?;
            let (file, inherit, root) = three::<CapSet, CapSet, CapSet>(words)?;
            Ok(Answer::Executed {
                cred,
                slot,
                ended,
                gains: Gains {
                    file,
                    inherit,
                    root,
                },
            })
        }
        _ => Err(Reason::Count),
    }
}

/// The answers of more than two words: one alone has five.
#[tactic(auto, unfolding(crate::specs::Answers::longer))]
fn longer(words: &[&[u8]]) -> Result<Answer, Reason>
    ensures { Says (λ answer. answer) result (spec.longer (nows words.now)) }
{
    if words.len() == 5 {
        acted(words)
    } else {
        longest(words)
    }
}

/// `ok` with no value, or with values that answer no question.
#[tactic(auto, unfolding(crate::specs::Answers::plain))]
fn plain(words: &[&[u8]]) -> Result<Answer, Reason>
    ensures { Says (λ answer. answer) result (spec.plain (nows words.now)) }
{
    match words {
        [] => Ok(Answer::Done),
        [slot] => Ok(Answer::Kept {
            slot: word::<SlotWord>(slot)?,
        }),
        [a, b] => {
            if is(a, "was") {
                return Ok(Answer::Was {
                    previous: word::<Id>(b)?,
                });
            }
            let (cred, slot) = two::<CredWord, SlotWord>(&[*a, *b])?;
            Ok(Answer::Sealed { cred, slot })
        }
        _ => longer(words),
    }
}

/// The owner, the group and the mode of a file, and whether it has an attribute.
#[tactic(auto, unfolding(crate::specs::Answers::file_told))]
fn file_told(words: &[&[u8]]) -> Result<Answer, Reason>
    ensures { Says (λ answer. answer) result (spec.file_told (nows words.now)) }
{
    match words {
        [owner, group, words @ ..] => {
            let (owner, group) = two::<Id, Id>(&[*owner, *group])?;
            let (mode, attr) = two::<ModeWord, FlagWord>(words)?;
            Ok(Answer::Told(Told::File {
                owner,
                group,
                mode,
                attr,
            }))
        }
        _ => Err(Reason::Count),
    }
}

/// What stands after `ok`.
#[tactic(auto, unfolding(crate::specs::Answers::ok_words))]
fn ok_words(alloc: Global, told: AnswerForm, words: &[&[u8]]) -> Result<Answer, LineRefusal>
    ensures { GivesLine (λ answer. answer) result (spec.ok_words told (nows words.now)) }
{
    match told {
        AnswerForm::Nothing => Ok(plain(words)?),
        AnswerForm::Ids => Ok(ids_told(words)?),
        AnswerForm::Caps => {
            let (perm, inh, eff, bound, amb) = five::<CapSet, CapSet, CapSet, CapSet, CapSet>(
                words,
            )?;
            Ok(Answer::Told(Told::Caps {
                perm,
                inh,
                eff,
                bound,
                amb,
            }))
        }
        AnswerForm::Groups => {
            let groups = IdList::from_vec(ids(alloc, words)?);
            Ok(Answer::Told(Told::Groups(groups)))
        }
        AnswerForm::Bits => {
            let (bits, nnp) = two::<SecurebitsWord, FlagWord>(words)?;
            Ok(Answer::Told(Told::Bits { bits, nnp }))
        }
        AnswerForm::Flag => Ok(Answer::Told(Told::Flag(one::<FlagWord>(words)?))),
        AnswerForm::File => Ok(file_told(words)?),
    }
}

/// The answer to an event that asks for this.
///
/// # Errors
///
/// `Bad` with the reason where the words are no such text, and `Memory` if memory ran out.
#[tactic(auto, unfolding(crate::specs::Answers::read_answer))]
pub(crate) fn read_answer(
    alloc: Global,
    told: AnswerForm,
    words: &[&[u8]],
) -> Result<Answer, LineRefusal>
    ensures { GivesLine (λ answer. answer) result (spec.read_answer told (nows words.now)) }
{
    match words {
        [name, rest @ ..] => {
            if is(name, "ok") {
                return ok_words(alloc, told, rest);
            }
            Ok(read_refusal(words)?)
        }
        [] => Err(LineRefusal::Bad(Reason::Count)),
    }
}
