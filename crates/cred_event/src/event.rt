//! The events: each is one step of the book.
use cred_ids::{Arg, Id, Kind};
use cred_record::{AdjCall, Attr, IdCall, PtraceMode, Want};

/// Which of a task's two credentials is meant (Documentation/security/credentials.rst).
#[derive(Clone, Copy, PartialEq, Eq, Debug)]
pub enum Side {
    /// The one that it acts with, which may be overridden.
    Subjective,
    /// The one that it is acted on by.
    Objective,
}

/// A question about one credential.
#[derive(Clone, Copy, PartialEq, Eq, Debug)]
pub enum Query {
    /// Its user ids and group ids.
    Ids,
    /// Its five capability sets.
    Caps,
    /// Its supplementary groups.
    Groups,
    /// Its securebits and whether no_new_privs is set.
    Bits,
    /// Whether its effective set has the capability of this number.
    Capable(u32),
    /// Whether its bounding set has it.
    Bset(u32),
    /// Whether its ambient set has it.
    AmbIs(u32),
    /// Whether it may do to the file all that is wanted. A file is named by its place among the
    /// script's files, counted from 0.
    Check { file: u32, want: Want },
}

/// A change of a prepared credential.
#[derive(Clone, Copy, PartialEq, Eq, Debug)]
pub enum Change {
    /// setfsuid(2) or setfsgid(2).
    SetFs(Kind, Arg),
    /// capset(2), or a call of prctl(2).
    Adjust(AdjCall),
    /// execve(2) of the file, named by its place among the script's files, counted from 0.
    Exec { file: u32 },
    /// What access(2) decides on.
    Access,
}

/// One step of the book. Tasks, processes, descriptors and labels are named by number,
/// a broadcast by the number of the line that began it.
#[derive(Drop)]
pub enum Event {
    /// A first task is created in a process, with these ids and this namespace.
    Init {
        task: u32,
        process: u32,
        user: Id,
        group: Id,
        ns: u32,
    },
    /// The label takes hold of a credential of the task.
    Take {
        label: u32,
        task: u32,
        side: Side,
    },
    /// The label takes hold of the credential of the open file's opener.
    TakeFile {
        label: u32,
        fd: u32,
    },
    /// The label drops what it holds.
    Release {
        label: u32,
    },
    /// A question about the credential that the label holds.
    Ask {
        label: u32,
        query: Query,
    },
    /// May the one task, on the credential that `hold` holds, signal the other, on `target`'s?
    Signal {
        from: u32,
        hold: u32,
        to: u32,
        target: u32,
    },
    /// The label prepares a new credential for the task, based on the one that `hold` holds.
    Prepare {
        label: u32,
        task: u32,
        hold: u32,
    },
    /// The prepared credential is the base, changed so.
    Alter {
        label: u32,
        change: Change,
    },
    /// The prepared credential is sealed and becomes its task's current one.
    Commit {
        label: u32,
    },
    /// The prepared credential is given up.
    Abort {
        label: u32,
    },
    /// The task acts with the label's credential from now on.
    Override {
        task: u32,
        label: u32,
    },
    /// The task acts with the credential that it had before its last override.
    Revert {
        task: u32,
    },
    /// The task makes an id call, which the other threads of its process will follow.
    Begin {
        task: u32,
        call: IdCall,
    },
    /// The next of the threads that wait in the broadcast follows it.
    Act {
        broadcast: u32,
    },
    /// The file is opened under the descriptor, by the credential that `hold` holds.
    OpenFile {
        hold: u32,
        file: u32,
        want: Want,
        fd: u32,
    },
    /// The descriptor is closed.
    CloseFile {
        fd: u32,
    },
    /// The task makes a thread of its process.
    Spawn {
        task: u32,
        child: u32,
    },
    /// The task makes a process with one thread.
    Fork {
        task: u32,
        child: u32,
        process: u32,
    },
    /// The task ends.
    Exit {
        task: u32,
    },
    /// Every reference that was given up is dropped.
    Sweep,
    /// The task's process is dumpable from now on, or isn't: the value is 1 or 0 (prctl(2),
    /// PR_SET_DUMPABLE).
    Dumpable {
        task: u32,
        value: u32,
    },
    /// Is the task's process dumpable (PR_GET_DUMPABLE)?
    Dumped {
        task: u32,
    },
    /// May the one task, on the credential that `hold` holds, look into the other, on `target`'s?
    Ptrace {
        from: u32,
        hold: u32,
        to: u32,
        target: u32,
        mode: PtraceMode,
    },
    /// The file has this owner and this group from now on (chown(2)): the credential that `hold`
    /// holds decides. A file is named by its place among the script's files, counted from 0.
    Chown {
        hold: u32,
        file: u32,
        owner: Arg,
        group: Arg,
    },
    /// It has this mode, at most octal 7777 (chmod(2)).
    Chmod {
        hold: u32,
        file: u32,
        mode: u16,
    },
    /// It has this capability attribute, or none (setxattr(2), removexattr(2)).
    SetAttr {
        hold: u32,
        file: u32,
        attr: Option<Attr>,
    },
    /// A question about the file as it stands (stat(2)).
    Stat {
        hold: u32,
        file: u32,
    },
    /// The task makes an id call for itself alone, which no other thread of its process will
    /// follow: the system call without its wrapper in the C library (nptl(7)).
    Raw {
        task: u32,
        call: IdCall,
    },
}
