//! Why a line is refused, and why a text is no script.
ghost use Rattle.std.specs.Prelude.{◌≡◌};
ghost use Rattle.cred_grammar.specs.declared.refusal.LineRefusal.TheVariants as line;
ghost use Rattle.cred_grammar.specs.declared.refusal.ScriptRefusal.TheVariants as script;

use cred_ids::NoMemory;
use cred_spelling::Reason;
use std::alloc::{AllocError, AllocFailed};

/// Why a line holds nothing.
#[derive(Drop)]
pub enum LineRefusal {
    /// It is bad.
    Bad(Reason),
    /// Memory ran out.
    Memory,
}

impl From<Reason> for LineRefusal {
    ghost from_gives = { λ reason e. e ≡ line.Bad reason };

    fn from(reason: Reason) -> Self {
        LineRefusal::Bad(reason)
    }
}

impl From<AllocError> for LineRefusal {
    ghost from_gives = { λ _ e. e ≡ line.Memory };

    fn from(_: AllocError) -> Self {
        LineRefusal::Memory
    }
}

impl<T: Drop> From<AllocFailed<T>> for LineRefusal {
    ghost from_gives = { λ _ e. e ≡ line.Memory };

    fn from(_: AllocFailed<T>) -> Self {
        LineRefusal::Memory
    }
}

impl From<NoMemory> for LineRefusal {
    ghost from_gives = { λ _ e. e ≡ line.Memory };

    fn from(_: NoMemory) -> Self {
        LineRefusal::Memory
    }
}

/// Why no script was read.
#[derive(Drop, Debug)]
pub enum ScriptRefusal {
    /// The first bad line, counted from 1.
    Bad { line: u32, reason: Reason },
    /// Memory ran out.
    Memory,
}

impl From<NoMemory> for ScriptRefusal {
    ghost from_gives = { λ _ e. e ≡ script.Memory };

    fn from(_: NoMemory) -> Self {
        ScriptRefusal::Memory
    }
}
