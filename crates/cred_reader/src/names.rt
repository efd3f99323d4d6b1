//! What the text of an event begins with.
ghost use Rattle.std.specs.Prelude.{◌≡◌};
ghost use Rattle.cred_reader.specs.Events as spec;

use cred_spelling::{FileCallName, named};

/// The events of a report, by the word that their text begins with.
#[derive(Clone, Copy)]
pub enum EventWord {
    /// A label stands after the word.
    Label(LabelEvent),
    /// A task stands after the word.
    Task(TaskEvent),
    Act,
    CloseFile,
    Sweep,
    /// The access mode stands after the word.
    Ptrace,
    /// A label stands after the word, and then the file.
    File(FileCallName),
}

/// The events whose text has a label after its first word.
#[derive(Clone, Copy)]
pub enum LabelEvent {
    Take,
    TakeReal,
    TakeFile,
    Release,
    Ask,
    Prepare,
    Alter,
    Commit,
    Abort,
    OpenFile,
}

/// The events whose text has a task after its first word.
#[derive(Clone, Copy)]
pub enum TaskEvent {
    Init,
    Signal,
    Override,
    Revert,
    Begin,
    Spawn,
    Fork,
    Exit,
    Dumpable,
    Dumped,
    Raw,
}

static EVENT_NAMES: [(&str, EventWord); 30] = [
    ("init", EventWord::Task(TaskEvent::Init)),
    ("take", EventWord::Label(LabelEvent::Take)),
    ("takereal", EventWord::Label(LabelEvent::TakeReal)),
    ("takefile", EventWord::Label(LabelEvent::TakeFile)),
    ("drop", EventWord::Label(LabelEvent::Release)),
    ("ask", EventWord::Label(LabelEvent::Ask)),
    ("signal", EventWord::Task(TaskEvent::Signal)),
    ("prepare", EventWord::Label(LabelEvent::Prepare)),
    ("change", EventWord::Label(LabelEvent::Alter)),
    ("commit", EventWord::Label(LabelEvent::Commit)),
    ("abort", EventWord::Label(LabelEvent::Abort)),
    ("override", EventWord::Task(TaskEvent::Override)),
    ("revert", EventWord::Task(TaskEvent::Revert)),
    ("begin", EventWord::Task(TaskEvent::Begin)),
    ("act", EventWord::Act),
    ("open", EventWord::Label(LabelEvent::OpenFile)),
    ("close", EventWord::CloseFile),
    ("spawn", EventWord::Task(TaskEvent::Spawn)),
    ("fork", EventWord::Task(TaskEvent::Fork)),
    ("exit", EventWord::Task(TaskEvent::Exit)),
    ("sweep", EventWord::Sweep),
    ("dumpable", EventWord::Task(TaskEvent::Dumpable)),
    ("dumped", EventWord::Task(TaskEvent::Dumped)),
    ("ptrace", EventWord::Ptrace),
    ("chown", EventWord::File(FileCallName::Chown)),
    ("chmod", EventWord::File(FileCallName::Chmod)),
    ("setattr", EventWord::File(FileCallName::SetAttr)),
    ("clearattr", EventWord::File(FileCallName::ClearAttr)),
    ("stat", EventWord::File(FileCallName::Stat)),
    ("raw", EventWord::Task(TaskEvent::Raw)),
];

/// The event that the word names.
#[tactic(auto, unfolding(crate::specs::Events::event_names))]
pub(crate) fn event_name(word: &[u8]) -> Option<EventWord>
    ensures { result ≡ spec.event_name word.now }
{
    named(&EVENT_NAMES, word)
}
