//! Why execve is refused.
use cred_filecap::AttrRefusal;
use cred_ids::NoMemory;

/// Why an execve changes nothing.
#[derive(Clone, Copy, PartialEq, Eq, Debug)]
pub enum ExecRefusal {
    /// EACCES: the file is not a regular file that the task may execute.
    Access,
    /// EINVAL: the bytes of the file's capability attribute spell nothing.
    BadAttribute,
    /// EPERM: the file has the effective flag, and would not give all of its permitted set.
    Perm,
    /// An allocation failed.
    Memory,
}

impl From<AttrRefusal> for ExecRefusal {
    ghost use Rattle.std.specs.Prelude.{◌≡◌};
    ghost use Rattle.cred_exec.specs.declared.refusal.ExecRefusal.TheVariants.{BadAttribute};

    ghost from_gives = { λ _ r. r ≡ BadAttribute };

    fn from(_e: AttrRefusal) -> ExecRefusal {
        ExecRefusal::BadAttribute
    }
}

impl From<NoMemory> for ExecRefusal {
    ghost use Rattle.std.specs.Prelude.{◌≡◌};
    ghost use Rattle.cred_exec.specs.declared.refusal.ExecRefusal.TheVariants.{Memory};

    ghost from_gives = { λ _ r. r ≡ Memory };

    fn from(_e: NoMemory) -> ExecRefusal {
        ExecRefusal::Memory
    }
}
