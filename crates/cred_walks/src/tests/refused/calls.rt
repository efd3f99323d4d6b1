//! The events that a book is asked beside its script.
ghost use Rattle.std.specs.Prelude.{◌<◌, ℕ, List, length, IfOk};
ghost use Rattle.cred_model.specs.Named.{IsEventOf};
ghost use Rattle.cred_model.specs.Script.{Namespace};

use cred_event::{Event, Side};
use cred_ids::{Arg, Id};
use cred_record::{IdCall, Want};
use cred_script::Script;
use std::test::Fail;

/// An event, by what it names; `Begin` with its line.
#[derive(Clone, Copy)]
pub(crate) enum NamedEvent {
    Init {
        task: u32,
        process: u32,
    },
    Take {
        label: u32,
        task: u32,
    },
    Release {
        label: u32,
    },
    Signal {
        from: u32,
        hold: u32,
        to: u32,
        target: u32,
    },
    Open {
        hold: u32,
        fd: u32,
    },
    Begin {
        line: u32,
        task: u32,
    },
    Raw {
        task: u32,
    },
    Chown {
        hold: u32,
    },
    Chmod {
        hold: u32,
    },
    ClearAttr {
        hold: u32,
    },
    Stat {
        hold: u32,
    },
    Act,
    Sweep,
}

/// To be read.
const READ: Want = Want {
    r: true,
    w: false,
    x: false,
};

/// The line that began the call which is open.
pub(crate) const BROADCAST: u32 = 10;

/// The line that the event is one of.
pub(crate) fn line_of(call: NamedEvent) -> u32 {
    match call {
        NamedEvent::Begin { line, .. } => line,
        _ => 11,
    }
}

/// The place of the script's first file.
fn first_file(script: &Script) -> Result<u32, Fail>
    ensures { IfOk result (λ place. place < length script.now.files) }
{
    match script.file(0) {
        Some(_) => Ok(0),
        None => Err(Fail::from("a file")),
    }
}

/// The event in a script, whose first file it names.
pub(crate) fn event_of(script: &Script, call: NamedEvent) -> Result<Event, Fail>
    ensures { IfOk result
        (IsEventOf (length script.now.files) script.now.namespaces) }
{
    let root = Id::new(0).ok_or("root")?;
    let file = first_file(script)?;
    Ok(match call {
        NamedEvent::Init { task, process } => Event::Init {
            task,
            process,
            user: root,
            group: root,
            ns: 0,
        },
        NamedEvent::Begin { task, .. } => Event::Begin {
            task,
            call: IdCall::SetGid(Arg::of(7)),
        },
        NamedEvent::Raw { task } => Event::Raw {
            task,
            call: IdCall::SetGid(Arg::of(7)),
        },
        NamedEvent::Act => Event::Act {
            broadcast: BROADCAST,
        },
        _ => on_label(file, call),
    })
}

/// The same of an event on labels.
fn on_label(file: u32, call: NamedEvent) -> Event
    ensures { (files : ℕ) (declared : List Namespace) → file < files
        → IsEventOf files declared result }
{
    match call {
        NamedEvent::Take { label, task } => Event::Take {
            label,
            task,
            side: Side::Subjective,
        },
        NamedEvent::Release { label } => Event::Release { label },
        NamedEvent::Signal {
            from,
            hold,
            to,
            target,
        } => Event::Signal {
            from,
            hold,
            to,
            target,
        },
        NamedEvent::Open { hold, fd } => Event::OpenFile {
            hold,
            file,
            want: READ,
            fd,
        },
        _ => on_file(file, call),
    }
}

/// The same of a call on the file, or of a sweep.
fn on_file(file: u32, call: NamedEvent) -> Event
    ensures { (files : ℕ) (declared : List Namespace) → file < files
        → IsEventOf files declared result }
{
    match call {
        NamedEvent::Chown { hold } => Event::Chown {
            hold,
            file,
            owner: Arg::of(0),
            group: Arg::Keep,
        },
        NamedEvent::Chmod { hold } => Event::Chmod {
            hold,
            file,
            mode: 0o4755,
        },
        NamedEvent::ClearAttr { hold } => Event::SetAttr {
            hold,
            file,
            attr: None,
        },
        NamedEvent::Stat { hold } => Event::Stat { hold, file },
        _ => Event::Sweep,
    }
}
