//! What a task does on a line of its own. Each function takes the words that stand after the one
//! that names the call.
ghost use Rattle.cred_spelling.specs.Read.{Says, nows};
ghost use Rattle.cred_grammar.specs.Calls as spec;
ghost use Rattle.cred_grammar.specs.ReadAnswers.{GivesLine};

use crate::changes::change_of;
use crate::file_calls::file_call_of;
use crate::id_calls::id_call_of;
use crate::modes::AccessMode;
use crate::questions::{file_and_want, query_of};
use crate::records::record_of;
use crate::refusal::LineRefusal;
use cred_event::{Change, Content, Event};
use cred_record::AdjCall;
use cred_script::DeclaredFiles;
use cred_spelling::{
    CallName, Descriptor, Number, OtherName, Reason, SpelledCap, SpelledProcess, SpelledTask,
    call_name, id_name, no_words, one, two, word,
};
use std::alloc::Global;

/// A call or a question of the task: the line names it after the task. A file that it names is
/// given by its place, the number of files where none has the name.
///
/// # Errors
///
/// `LineRefusal::Bad` with `Reason::Word` where a word names no call or spells no argument, and
/// with `Reason::Count` where the words are more or fewer than the call has; `LineRefusal::Memory`
/// where there is no memory for a list of groups or of bytes.
#[tactic(auto, unfolding(crate::specs::Calls::content_of))]
// Not inlined, so that the content is put into memory once, and not in parts.
#[inline(never)]
pub fn content_of(
    alloc: Global,
    files: &DeclaredFiles,
    task: u32,
    words: &[&[u8]],
) -> Result<Content, LineRefusal>
    ensures { GivesLine (λ content. content) result
        (spec.content_of files.now task (nows words.now)) }
{
    match words {
        [] => Err(LineRefusal::Bad(Reason::Word)),
        [name, words @ ..] => {
            let Some(name) = call_name(name) else {
                return Err(LineRefusal::Bad(Reason::Word));
            };
            call_of(alloc, files, task, name, words)
        }
    }
}

/// What the task does, by its name.
#[tactic(auto, unfolding(crate::specs::Calls::call_of))]
fn call_of(
    alloc: Global,
    files: &DeclaredFiles,
    task: u32,
    name: CallName,
    words: &[&[u8]],
) -> Result<Content, LineRefusal>
    ensures { GivesLine (λ made. made) result
        (spec.call_of files.now task name (nows words.now)) }
{
    match name {
        CallName::Id(name) => Ok(Content::Id {
            task,
            call: id_call_of(alloc, name, words)?,
        }),
        CallName::Change(name) => Ok(Content::Change {
            task,
            change: change_of(files, name, words)?,
        }),
        CallName::Question(name) => Ok(Content::Question {
            task,
            query: query_of(files, name, words)?,
        }),
        CallName::Other(name) => other_of(alloc, files, task, name, words),
        CallName::File(name) => Ok(Content::OnFile {
            task,
            call: file_call_of(alloc, files, name, words)?,
        }),
    }
}

/// A call that is neither an id call, nor a change, nor a question, nor a call on a file, by its
/// name. `signal` has the task that is signalled, `spawn` the new thread, `fork` the child and its
/// process. `ptrace` has how the task asks, and then the task that it asks to look into.
#[tactic(auto, unfolding(crate::specs::Calls::other_of))]
fn other_of(
    alloc: Global,
    files: &DeclaredFiles,
    task: u32,
    name: OtherName,
    words: &[&[u8]],
) -> Result<Content, LineRefusal>
    ensures { GivesLine (λ made. made) result
        (spec.other_of files.now task name (nows words.now)) }
{
    match name {
        OtherName::Open => Ok(open_call(files, task, words)?),
        OtherName::Close => {
            let fd = one::<Descriptor>(words)?;
            Ok(Content::One(Event::CloseFile { fd }))
        }
        OtherName::Fcap => {
            let (fd, cap) = two::<Descriptor, SpelledCap>(words)?;
            Ok(Content::Fcap { task, fd, cap })
        }
        OtherName::Access => {
            let (file, want) = file_and_want(files, words)?;
            Ok(Content::Access { task, file, want })
        }
        OtherName::Signal => {
            let to = one::<SpelledTask>(words)?;
            Ok(Content::Signal { task, to })
        }
        OtherName::Spawn => {
            let child = one::<SpelledTask>(words)?;
            Ok(Content::One(Event::Spawn { task, child }))
        }
        OtherName::Fork => {
            let (child, process) = two::<SpelledTask, SpelledProcess>(words)?;
            Ok(Content::One(Event::Fork {
                task,
                child,
                process,
            }))
        }
        OtherName::Exit => {
            no_words(words)?;
            Ok(Content::One(Event::Exit { task }))
        }
        OtherName::Dumpable => {
            let value = one::<Number>(words)?;
            Ok(Content::One(Event::Dumpable { task, value }))
        }
        OtherName::Dumped => {
            no_words(words)?;
            Ok(Content::One(Event::Dumped { task }))
        }
        OtherName::Ptrace => {
            let (mode, to) = two::<AccessMode, SpelledTask>(words)?;
            Ok(Content::Ptrace { task, to, mode })
        }
        OtherName::CapsetRaw => capset_raw_of(alloc, task, words),
        OtherName::Raw => raw_of(alloc, task, words),
    }
}

/// `capsetraw HEX`: the sets of the record.
#[tactic(auto, unfolding(crate::specs::Calls::capset_raw_of))]
fn capset_raw_of(alloc: Global, task: u32, words: &[&[u8]]) -> Result<Content, LineRefusal>
    ensures { GivesLine (λ made. made) result (spec.capset_raw_of task (nows words.now)) }
{
    match words {
        [word] => {
            let sets = record_of(alloc, task, word)?;
            Ok(Content::Change {
                task,
                change: Change::Adjust(AdjCall::Capset {
                    perm: sets.perm,
                    inh: sets.inh,
                    eff: sets.eff,
                }),
            })
        }
        _ => Err(LineRefusal::Bad(Reason::Count)),
    }
}

/// `raw CALL`: an id call of the one thread.
#[tactic(auto, unfolding(crate::specs::Calls::raw_of))]
fn raw_of(alloc: Global, task: u32, words: &[&[u8]]) -> Result<Content, LineRefusal>
    ensures { GivesLine (λ made. made) result (spec.raw_of task (nows words.now)) }
{
    match words {
        [name, words @ ..] => {
            let Some(name) = id_name(name) else {
                return Err(LineRefusal::Bad(Reason::Word));
            };
            let call = id_call_of(alloc, name, words)?;
            Ok(Content::One(Event::Raw { task, call }))
        }
        _ => Err(LineRefusal::Bad(Reason::Count)),
    }
}

/// `open NAME WANT F`
#[tactic(auto, unfolding(crate::specs::Calls::open_call))]
fn open_call(files: &DeclaredFiles, task: u32, words: &[&[u8]]) -> Result<Content, Reason>
    ensures { Says (λ made. made) result (spec.open_call files.now task (nows words.now)) }
{
    match words {
        [name, want, fd] => {
            let (file, want) = file_and_want(files, &[*name, *want])?;
            let fd = word::<Descriptor>(fd)?;
            Ok(Content::Open {
                task,
                file,
                want,
                fd,
            })
        }
        _ => Err(Reason::Count),
    }
}
