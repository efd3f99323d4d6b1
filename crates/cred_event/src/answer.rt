//! What an event is answered.
ghost use Rattle.std.specs.Prelude.{◌≡◌};
ghost use Rattle.cred_event.specs.Answers as spec;

use cred_caps::{CapSet, SecureBits};
use cred_ids::{Id, Ids4};
use cred_record::{Gains, IdList};

/// What a question that isn't refused is answered.
#[derive(Drop)]
pub enum Told {
    Ids {
        uid: Ids4,
        gid: Ids4,
    },
    Caps {
        perm: CapSet,
        inh: CapSet,
        eff: CapSet,
        bound: CapSet,
        amb: CapSet,
    },
    Groups(IdList),
    Bits {
        bits: SecureBits,
        nnp: bool,
    },
    Flag(bool),
    /// What stat(2) says of a file, and whether it has a capability attribute.
    File {
        owner: Id,
        group: Id,
        mode: u16,
        attr: bool,
    },
}

/// What has the number already.
#[derive(Clone, Copy, PartialEq, Eq, Debug)]
pub enum Named {
    Task,
    Process,
    Label,
    File,
    Broadcast,
}

/// What there are too many of.
#[derive(Clone, Copy, PartialEq, Eq, Debug)]
pub enum Counted {
    Tasks,
    Files,
    Holds,
    Prepared,
}

/// Why a thread could not follow a broadcast.
#[derive(Clone, Copy, PartialEq, Eq, Debug)]
pub enum AbortCause {
    /// The call was refused on its own credential.
    Perm,
    /// There was no slot for its new credential.
    Full,
}

/// What an event is answered.
///
/// `cred` is the number of a sealed credential: the first that was sealed has number 0. `slot` is
/// the slot that it stands in, below 256.
#[derive(Drop)]
pub enum Answer {
    Done,
    Sealed {
        cred: u64,
        slot: u32,
    },
    Kept {
        slot: u32,
    },
    Was {
        previous: Id,
    },
    Executed {
        cred: u64,
        slot: u32,
        ended: u32,
        gains: Gains,
    },
    Began {
        cred: u64,
        slot: u32,
        left: u32,
    },
    Acted {
        task: u32,
        cred: u64,
        slot: u32,
        left: u32,
    },
    Told(Told),
    Eperm,
    Einval,
    Eacces,
    Ebadf,
    NoTask(u32),
    NoHold(u32),
    NoPrepared(u32),
    NoBroadcast(u32),
    Busy(u32),
    Exists {
        what: Named,
        number: u32,
    },
    Overridden(u32),
    NotOverridden,
    TooDeep,
    Stale {
        base: u64,
        now: u64,
    },
    TooMany(Counted),
    TableFull,
    Aborted {
        task: u32,
        cause: AbortCause,
    },
}

impl Answer {
    /// Whether the event was not refused.
    pub fn is_ok(&self) -> bool
        ensures { result ≡ spec.is_ok self.now }
    {
        matches!(
            self,
            Answer::Done
                | Answer::Sealed { .. }
                | Answer::Kept { .. }
                | Answer::Was { .. }
                | Answer::Executed { .. }
                | Answer::Began { .. }
                | Answer::Acted { .. }
                | Answer::Told(_)
        )
    }
}
