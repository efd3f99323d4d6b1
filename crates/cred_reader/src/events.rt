//! The event that words are the text of.
ghost use Rattle.cred_spelling.specs.Read.{Says, nows};
ghost use Rattle.cred_grammar.specs.ReadAnswers.{GivesLine};
ghost use Rattle.std.specs.Prelude.{◌≡◌};
ghost use Rattle.cred_model.specs.Course.{calling};
ghost use Rattle.cred_reader.specs.Events as spec;

use crate::kinds::{FdWord, LabelWord, ProcessWord, TaskWord};
use crate::names::{EventWord, LabelEvent, TaskEvent, event_name};
use cred_event::{Change, Event, FileCall, Side};
use cred_grammar::{
    AccessMode, LineRefusal, change_of, file_at, file_call_of, id_call_of, query_named,
};
use cred_ids::Id;
use cred_record::{IdCall, Want};
use cred_script::Script;
use cred_spelling::{
    FileCallName, Number, Reason, SpelledNamespace, altered_name, five, id_name, no_words, one,
    three, two, word,
};
use std::alloc::Global;

/// A first task, with its process, its ids and its namespace.
#[tactic(auto, unfolding(crate::specs::Events::init_of))]
fn init_of(words: &[&[u8]]) -> Result<Event, Reason>
    ensures { Says (λ event. event) result (spec.init_of (nows words.now)) }
{
    let (task, process, user, group, ns) = five::<TaskWord, ProcessWord, Id, Id, SpelledNamespace>(
        words,
    )?;
    Ok(Event::Init {
        task,
        process,
        user,
        group,
        ns,
    })
}

/// A label, and the task whose credential it takes.
#[tactic(auto, unfolding(crate::specs::Events::read_take))]
fn read_take(side: Side, words: &[&[u8]]) -> Result<Event, Reason>
    ensures { Says (λ event. event) result (spec.read_take side (nows words.now)) }
{
    let (label, task) = two::<LabelWord, TaskWord>(words)?;
    Ok(Event::Take { label, task, side })
}

/// A label, and a question.
#[tactic(auto, unfolding(crate::specs::Events::read_ask))]
fn read_ask(script: &Script, words: &[&[u8]]) -> Result<Event, Reason>
    ensures { Says (λ event. event) result (spec.read_ask script.now.files (nows words.now)) }
{
    match words {
        [hold, asked, words @ ..] => {
            let label = word::<LabelWord>(hold)?;
            let query = query_named(script.files(), asked, words)?;
            Ok(Event::Ask { label, query })
        }
        _ => Err(Reason::Count),
    }
}

/// Two tasks, each with the label that holds its credential.
#[tactic(auto, unfolding(crate::specs::Events::signal_of))]
fn signal_of(words: &[&[u8]]) -> Result<Event, Reason>
    ensures { Says (λ event. event) result (spec.signal_of (nows words.now)) }
{
    match words {
        [from, hold, words @ ..] => {
            let (from, hold) = two::<TaskWord, LabelWord>(&[*from, *hold])?;
            let (to, target) = two::<TaskWord, LabelWord>(words)?;
            Ok(Event::Signal {
                from,
                hold,
                to,
                target,
            })
        }
        _ => Err(Reason::Count),
    }
}

/// A change, by the word that names it.
#[tactic(auto, unfolding(crate::specs::Events::change_named))]
fn change_named(script: &Script, name: &[u8], words: &[&[u8]]) -> Result<Change, Reason>
    ensures { Says (λ change. change) result
        (spec.change_named script.now.files name.now (nows words.now)) }
{
    let name = altered_name(name).ok_or(Reason::Word)?;
    change_of(script.files(), name, words)
}

/// A label, and a change.
#[tactic(auto, unfolding(crate::specs::Events::read_alter))]
fn read_alter(script: &Script, words: &[&[u8]]) -> Result<Event, Reason>
    ensures { Says (λ event. event) result (spec.read_alter script.now.files (nows words.now)) }
{
    match words {
        [prepared, changed, words @ ..] => {
            let label = word::<LabelWord>(prepared)?;
            let change = change_named(script, changed, words)?;
            Ok(Event::Alter { label, change })
        }
        _ => Err(Reason::Count),
    }
}

/// An id call, by the word that names it.
#[tactic(auto, unfolding(crate::specs::Events::call_named))]
fn call_named(alloc: Global, name: &[u8], words: &[&[u8]]) -> Result<IdCall, LineRefusal>
    ensures { GivesLine (λ call. call) result (spec.call_named name.now (nows words.now)) }
{
    id_call_of(alloc, id_name(name).ok_or(Reason::Word)?, words)
}

/// A task, and an id call.
#[tactic(auto, unfolding(crate::specs::Events::read_begin))]
fn read_begin(alloc: Global, words: &[&[u8]]) -> Result<Event, LineRefusal>
    ensures { GivesLine (λ event. event) result (spec.read_begin (nows words.now)) }
{
    match words {
        [caller, called, words @ ..] => {
            let task = word::<TaskWord>(caller)?;
            let call = call_named(alloc, called, words)?;
            Ok(Event::Begin { task, call })
        }
        _ => Err(LineRefusal::Bad(Reason::Count)),
    }
}

/// A task, and an id call of its own.
#[tactic(auto, unfolding(crate::specs::Events::read_raw))]
fn raw_of(alloc: Global, words: &[&[u8]]) -> Result<Event, LineRefusal>
    ensures { GivesLine (λ event. event) result (spec.read_raw (nows words.now)) }
{
    match words {
        [caller, called, words @ ..] => {
            let task = word::<TaskWord>(caller)?;
            let call = call_named(alloc, called, words)?;
            Ok(Event::Raw { task, call })
        }
        _ => Err(LineRefusal::Bad(Reason::Count)),
    }
}

/// The event of a call on a file, which is decided on the hold's credential.
fn calling(hold: u32, call: FileCall) -> Event
    ensures { result ≡ calling hold call }
{
    match call {
        FileCall::Chown { file, owner, group } => Event::Chown {
            hold,
            file,
            owner,
            group,
        },
        FileCall::Chmod { file, mode } => Event::Chmod { hold, file, mode },
        FileCall::SetAttr { file, attr } => Event::SetAttr { hold, file, attr },
        FileCall::Stat { file } => Event::Stat { hold, file },
    }
}

/// A hold, and a call on a file.
#[tactic(auto, unfolding(crate::specs::Events::file_event))]
fn file_event(
    alloc: Global,
    script: &Script,
    name: FileCallName,
    words: &[&[u8]],
) -> Result<Event, LineRefusal>
    ensures { GivesLine (λ event. event) result
        (spec.file_event script.now.files name (nows words.now)) }
{
    match words {
        [hold, words @ ..] => {
            let hold = word::<LabelWord>(hold)?;
            let call = file_call_of(alloc, script.files(), name, words)?;
            Ok(calling(hold, call))
        }
        [] => Err(LineRefusal::Bad(Reason::Count)),
    }
}

/// A hold, a file, what is wanted of it, and a descriptor.
#[tactic(auto, unfolding(crate::specs::Events::read_open))]
fn read_open(script: &Script, words: &[&[u8]]) -> Result<Event, Reason>
    ensures { Says (λ event. event) result (spec.read_open script.now.files (nows words.now)) }
{
    match words {
        [hold, name, words @ ..] => {
            let hold = word::<LabelWord>(hold)?;
            let file = file_at(script.files(), name)?;
            let (want, fd) = two::<Want, FdWord>(words)?;
            Ok(Event::OpenFile {
                hold,
                file,
                want,
                fd,
            })
        }
        _ => Err(Reason::Count),
    }
}

/// An event whose text has a label after its first word, by its name.
#[tactic(auto, unfolding(crate::specs::Events::label_event))]
fn label_event(script: &Script, name: LabelEvent, words: &[&[u8]]) -> Result<Event, Reason>
    ensures { Says (λ event. event) result
        (spec.label_event script.now.files name (nows words.now)) }
{
    match name {
        LabelEvent::Take => read_take(Side::Subjective, words),
        LabelEvent::TakeReal => read_take(Side::Objective, words),
        LabelEvent::TakeFile => {
            let (label, fd) = two::<LabelWord, FdWord>(words)?;
            Ok(Event::TakeFile { label, fd })
        }
        LabelEvent::Release => Ok(Event::Release {
            label: one::<LabelWord>(words)?,
        }),
        LabelEvent::Ask => read_ask(script, words),
        LabelEvent::Prepare => {
            let (label, task, hold) = three::<LabelWord, TaskWord, LabelWord>(words)?;
            Ok(Event::Prepare { label, task, hold })
        }
        LabelEvent::Alter => read_alter(script, words),
        LabelEvent::Commit => Ok(Event::Commit {
            label: one::<LabelWord>(words)?,
        }),
        LabelEvent::Abort => Ok(Event::Abort {
            label: one::<LabelWord>(words)?,
        }),
        LabelEvent::OpenFile => read_open(script, words),
    }
}

/// An event whose text has a task after its first word, by its name.
#[tactic(auto, unfolding(crate::specs::Events::task_event))]
fn task_event(alloc: Global, name: TaskEvent, words: &[&[u8]]) -> Result<Event, LineRefusal>
    ensures { GivesLine (λ event. event) result (spec.task_event name (nows words.now)) }
{
    match name {
        TaskEvent::Init => Ok(init_of(words)?),
        TaskEvent::Signal => Ok(signal_of(words)?),
        TaskEvent::Override => {
            let (task, label) = two::<TaskWord, LabelWord>(words)?;
            Ok(Event::Override { task, label })
        }
        TaskEvent::Revert => Ok(Event::Revert {
            task: one::<TaskWord>(words)?,
        }),
        TaskEvent::Begin => read_begin(alloc, words),
        TaskEvent::Spawn => {
            let (task, child) = two::<TaskWord, TaskWord>(words)?;
            Ok(Event::Spawn { task, child })
        }
        TaskEvent::Fork => {
            let (task, child, process) = three::<TaskWord, TaskWord, ProcessWord>(words)?;
            Ok(Event::Fork {
                task,
                child,
                process,
            })
        }
        TaskEvent::Exit => Ok(Event::Exit {
            task: one::<TaskWord>(words)?,
        }),
        TaskEvent::Dumpable => {
            let (task, value) = two::<TaskWord, Number>(words)?;
            Ok(Event::Dumpable { task, value })
        }
        TaskEvent::Dumped => Ok(Event::Dumped {
            task: one::<TaskWord>(words)?,
        }),
        TaskEvent::Raw => raw_of(alloc, words),
    }
}

/// The access mode, and then two tasks, each with the label that holds its credential.
#[tactic(auto, unfolding(crate::specs::Events::ptrace_of))]
fn ptrace_of(words: &[&[u8]]) -> Result<Event, Reason>
    ensures { Says (λ event. event) result (spec.ptrace_of (nows words.now)) }
{
    match words {
        [asked, from, hold, words @ ..] => {
            let mode = word::<AccessMode>(asked)?;
            let (from, hold) = two::<TaskWord, LabelWord>(&[*from, *hold])?;
            let (to, target) = two::<TaskWord, LabelWord>(words)?;
            Ok(Event::Ptrace {
                from,
                hold,
                to,
                target,
                mode,
            })
        }
        _ => Err(Reason::Count),
    }
}

/// An event, by its name and the words after it.
#[tactic(auto, unfolding(crate::specs::Events::event_named))]
fn event_named(
    alloc: Global,
    script: &Script,
    name: EventWord,
    words: &[&[u8]],
) -> Result<Event, LineRefusal>
    ensures { GivesLine (λ event. event) result
        (spec.event_named script.now.files name (nows words.now)) }
{
    match name {
        EventWord::Label(name) => Ok(label_event(script, name, words)?),
        EventWord::Task(name) => task_event(alloc, name, words),
        EventWord::Act => Ok(Event::Act {
            broadcast: one::<Number>(words)?,
        }),
        EventWord::CloseFile => Ok(Event::CloseFile {
            fd: one::<FdWord>(words)?,
        }),
        EventWord::Sweep => {
            no_words(words)?;
            Ok(Event::Sweep)
        }
        EventWord::Ptrace => Ok(ptrace_of(words)?),
        EventWord::File(name) => file_event(alloc, script, name, words),
    }
}

/// The event that the words are the text of.
///
/// # Errors
///
/// `Bad` with the reason where the words are no such text, and `Memory` if memory ran out.
#[tactic(auto, unfolding(crate::specs::Events::read_event))]
pub(crate) fn read_event(
    alloc: Global,
    script: &Script,
    words: &[&[u8]],
) -> Result<Event, LineRefusal>
    ensures { GivesLine (λ event. event) result
        (spec.read_event script.now.files (nows words.now)) }
{
    match words {
        [name, words @ ..] => {
            let name = event_name(name).ok_or(Reason::Word)?;
            event_named(alloc, script, name, words)
        }
        [] => Err(LineRefusal::Bad(Reason::Count)),
    }
}
