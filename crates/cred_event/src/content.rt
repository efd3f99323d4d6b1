//! What a line of a script holds, and where a line stands between its events.
use crate::event::{Change, Event, Query};
use cred_ids::Arg;
use cred_record::{Attr, IdCall, PtraceMode, Want};

/// A call that changes a file of the script, or asks how it stands. The file is named by its place,
/// counted from 0.
#[derive(Drop)]
pub enum FileCall {
    /// chown(2).
    Chown { file: u32, owner: Arg, group: Arg },
    /// chmod(2), with a mode of at most octal 7777.
    Chmod { file: u32, mode: u16 },
    /// setxattr(2) of the capability attribute, or removexattr(2) of it.
    SetAttr { file: u32, attr: Option<Attr> },
    /// stat(2).
    Stat { file: u32 },
}

/// What a line of a script holds.
#[derive(Drop)]
pub enum Content {
    /// The line makes no event.
    Nothing,
    /// The line is this event.
    One(Event),
    /// An id call, which all threads of the task's process make.
    Id {
        task: u32,
        call: IdCall,
    },
    /// A question about the credential that the task acts with.
    Question {
        task: u32,
        query: Query,
    },
    /// The task opens a file.
    Open {
        task: u32,
        file: u32,
        want: Want,
        fd: u32,
    },
    /// Has the opener of an open file the capability?
    Fcap {
        task: u32,
        fd: u32,
        cap: u32,
    },
    /// The task signals another.
    Signal {
        task: u32,
        to: u32,
    },
    /// The task asks to look into another.
    Ptrace {
        task: u32,
        to: u32,
        mode: PtraceMode,
    },
    /// The task changes its own credential.
    Change {
        task: u32,
        change: Change,
    },
    /// access(2).
    Access {
        task: u32,
        file: u32,
        want: Want,
    },
    /// The task changes a file, or asks how it stands.
    OnFile {
        task: u32,
        call: FileCall,
    },
}

/// The stages of a line: which event it makes next. A line whose last event was made has none.
#[derive(Clone, Copy, PartialEq, Eq, Debug)]
pub enum Stage {
    /// Its first event.
    First,
    /// The step of the next thread that waits in the line's broadcast.
    Acting,
    /// The question on the hold that it took.
    Asking,
    /// The opening of a file.
    Opening,
    /// The call on a file, which changes it or asks how it stands.
    Calling,
    /// The hold of the credential of the task that is signalled, or looked into.
    TakingTarget,
    /// The signal.
    Signalling,
    /// The question whether the task may look into the other.
    Tracing,
    /// The release of the target's hold.
    ReleasingTarget,
    /// The preparation of a new credential.
    Preparing,
    /// The change of that one.
    Altering,
    /// Its commit.
    Committing,
    /// The end of a preparation that came to nothing.
    Aborting,
    /// The override of the task's credential by the one that access(2) asks by.
    Overriding,
    /// The hold of that one.
    TakingAccess,
    /// The release of that hold.
    ReleasingAccess,
    /// The end of the override.
    Reverting,
    /// The release of the hold, with which the line ends.
    Releasing,
    /// The release of the hold, after which the line begins again.
    Retrying,
}
