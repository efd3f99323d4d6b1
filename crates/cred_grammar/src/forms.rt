//! The forms of a line: what its words are, and what it then declares or holds. Each function takes
//! the words that stand after the one that names the form. Their number is tested before what they
//! spell.
ghost use Rattle.cred_spelling.specs.Read.{nows};
ghost use Rattle.cred_grammar.specs.Forms as spec;
ghost use Rattle.cred_grammar.specs.ReadAnswers.{GivesLine};

use crate::calls::content_of;
use crate::changes::change_of;
use crate::file_line::file_of;
use crate::id_calls::id_call_of;
use crate::questions::query_named;
use crate::refusal::LineRefusal;
use cred_event::{Content, Event, Side};
use cred_ids::Id;
use cred_script::{DeclaredFiles, ScriptFile, event_actor};
use cred_spelling::{
    Descriptor, EventName, Form, LaneNumber, LineNumber, NewNamespace, Parent, Reason,
    SpelledLabel, SpelledNamespace, SpelledProcess, SpelledTask, altered_name, five, id_name,
    no_words, one, three, two, word,
};
use std::alloc::Global;

/// A line that was parsed: what it declares or holds.
#[derive(Drop)]
pub enum Parsed {
    /// Nothing.
    Empty,
    /// It declares a file.
    File(ScriptFile),
    /// It declares a user namespace, with its number, which isn't 0, its root id and its parent's
    /// number. Numbers are at most 99,999.
    Namespace { number: u32, root: Id, parent: u32 },
    /// It creates a first task, which is a declaration too.
    Starts(Content),
    /// It opens a lane, from 1 to 16, or continues it.
    Lane(u32),
    /// It is a call, a question or an event, with the task that acts by it, if one does.
    Holds { by: Option<u32>, content: Content },
}

/// A line of this form, where these files are declared before it. A file that it names is given by
/// its place, the number of files where none has the name: whether the names that a line uses are
/// declared is not tested here.
///
/// # Errors
///
/// `LineRefusal::Bad` with `Reason::Count` where the words are more or fewer than the form has, or
/// where it would declare a file more than a script may have, and with `Reason::Word` where a word
/// spells nothing that may stand there; `LineRefusal::Memory` where there is no memory for a list
/// of groups, a file's name or its attribute.
#[tactic(auto, unfolding(crate::specs::Forms::parse_form))]
pub fn parse_form(
    alloc: Global,
    files: &DeclaredFiles,
    form: Form,
    words: &[&[u8]],
) -> Result<Parsed, LineRefusal>
    ensures { GivesLine (λ line. line) result (spec.parse_form files.now form (nows words.now)) }
{
    match form {
        Form::Init => {
            let (task, process, user, group, ns) = five::<
                SpelledTask,
                SpelledProcess,
                Id,
                Id,
                SpelledNamespace,
            >(words)?;
            let content = Content::One(Event::Init {
                task,
                process,
                user,
                group,
                ns,
            });
            Ok(Parsed::Starts(content))
        }
        Form::File => Ok(Parsed::File(file_of(alloc, files, words)?)),
        Form::Namespace => {
            let (number, root, parent) = three::<NewNamespace, Id, Parent>(words)?;
            Ok(Parsed::Namespace {
                number,
                root,
                parent,
            })
        }
        Form::Lane => Ok(Parsed::Lane(one::<LaneNumber>(words)?)),
        Form::Task(task) => Ok(Parsed::Holds {
            by: Some(task),
            content: content_of(alloc, files, task, words)?,
        }),
        Form::Event(name) => {
            let event = event_of(alloc, files, name, words)?;
            Ok(Parsed::Holds {
                by: event_actor(&event),
                content: Content::One(event),
            })
        }
    }
}

/// An event, by its name. `act` has the number of the line that began the broadcast. A file that it
/// names is given by its place, the number of files where none has the name.
///
/// # Errors
///
/// `LineRefusal::Bad` with `Reason::Count` where the words are more or fewer than the event has,
/// and with `Reason::Word` where a word spells nothing that may stand there; `LineRefusal::Memory`
/// where there is no memory for a list of groups.
#[tactic(auto, unfolding(crate::specs::Forms::event_of))]
// As `content_of`.
#[inline(never)]
pub fn event_of(
    alloc: Global,
    files: &DeclaredFiles,
    name: EventName,
    words: &[&[u8]],
) -> Result<Event, LineRefusal>
    ensures { GivesLine (λ event. event) result (spec.event_of files.now name (nows words.now)) }
{
    match name {
        EventName::Take => take_of(Side::Subjective, words),
        EventName::TakeReal => take_of(Side::Objective, words),
        EventName::TakeFile => take_file_of(words),
        EventName::Release => Ok(Event::Release {
            label: one::<SpelledLabel>(words)?,
        }),
        EventName::Ask => ask_of(files, words),
        EventName::Prepare => {
            let (label, task, hold) = three::<SpelledLabel, SpelledTask, SpelledLabel>(words)?;
            Ok(Event::Prepare { label, task, hold })
        }
        EventName::Alter => alter_of(files, words),
        EventName::Commit => Ok(Event::Commit {
            label: one::<SpelledLabel>(words)?,
        }),
        EventName::Abort => Ok(Event::Abort {
            label: one::<SpelledLabel>(words)?,
        }),
        EventName::Override => override_of(words),
        EventName::Revert => Ok(Event::Revert {
            task: one::<SpelledTask>(words)?,
        }),
        EventName::Begin => begin_of(alloc, words),
        EventName::Act => Ok(Event::Act {
            broadcast: one::<LineNumber>(words)?,
        }),
        EventName::Sweep => {
            no_words(words)?;
            Ok(Event::Sweep)
        }
    }
}

/// `take H T` and `takereal H T`
#[tactic(auto, unfolding(crate::specs::Forms::take_of))]
#[inline(always)]
fn take_of(side: Side, words: &[&[u8]]) -> Result<Event, LineRefusal>
    ensures { GivesLine (λ event. event) result (spec.take_of side (nows words.now)) }
{
    let (label, task) = two::<SpelledLabel, SpelledTask>(words)?;
    Ok(Event::Take { label, task, side })
}

/// `takefile H F`
#[tactic(auto, unfolding(crate::specs::Forms::take_file_of))]
fn take_file_of(words: &[&[u8]]) -> Result<Event, LineRefusal>
    ensures { GivesLine (λ event. event) result (spec.take_file_of (nows words.now)) }
{
    let (label, fd) = two::<SpelledLabel, Descriptor>(words)?;
    Ok(Event::TakeFile { label, fd })
}

/// `ask H QUESTION`: the question is read before the label.
#[tactic(auto, unfolding(crate::specs::Forms::ask_of))]
fn ask_of(files: &DeclaredFiles, words: &[&[u8]]) -> Result<Event, LineRefusal>
    ensures { GivesLine (λ event. event) result (spec.ask_of files.now (nows words.now)) }
{
    match words {
        [label, name, words @ ..] => {
            let query = query_named(files, name, words)?;
            let label = word::<SpelledLabel>(label)?;
            Ok(Event::Ask { label, query })
        }
        _ => Err(LineRefusal::Bad(Reason::Count)),
    }
}

/// `change H CHANGE`, `change H access`: the change is read before the label.
#[tactic(auto, unfolding(crate::specs::Forms::alter_of))]
fn alter_of(files: &DeclaredFiles, words: &[&[u8]]) -> Result<Event, LineRefusal>
    ensures { GivesLine (λ event. event) result (spec.alter_of files.now (nows words.now)) }
{
    match words {
        [label, name, words @ ..] => {
            let Some(name) = altered_name(name) else {
                return Err(LineRefusal::Bad(Reason::Word));
            };
            let change = change_of(files, name, words)?;
            let label = word::<SpelledLabel>(label)?;
            Ok(Event::Alter { label, change })
        }
        _ => Err(LineRefusal::Bad(Reason::Count)),
    }
}

/// `override T H`
#[tactic(auto, unfolding(crate::specs::Forms::override_of))]
fn override_of(words: &[&[u8]]) -> Result<Event, LineRefusal>
    ensures { GivesLine (λ event. event) result (spec.override_of (nows words.now)) }
{
    let (task, label) = two::<SpelledTask, SpelledLabel>(words)?;
    Ok(Event::Override { task, label })
}

/// `begin T CALL`: the call is read before the task.
#[tactic(auto, unfolding(crate::specs::Forms::begin_of))]
fn begin_of(alloc: Global, words: &[&[u8]]) -> Result<Event, LineRefusal>
    ensures { GivesLine (λ event. event) result (spec.begin_of (nows words.now)) }
{
    match words {
        [task, name, words @ ..] => {
            let Some(name) = id_name(name) else {
                return Err(LineRefusal::Bad(Reason::Word));
            };
            let call = id_call_of(alloc, name, words)?;
            let task = word::<SpelledTask>(task)?;
            Ok(Event::Begin { task, call })
        }
        _ => Err(LineRefusal::Bad(Reason::Count)),
    }
}
