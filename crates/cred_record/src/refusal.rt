//! Why a call is refused.
use cred_ids::NoMemory;

/// Why a call changes nothing.
#[derive(Clone, Copy, PartialEq, Eq, Debug)]
pub enum Refusal {
    /// EPERM: the caller may not do this.
    Perm,
    /// EINVAL: the call takes no such argument.
    Invalid,
    /// Memory ran out.
    Memory,
}

impl From<NoMemory> for Refusal {
    ghost use Rattle.std.specs.Prelude.{◌≡◌};
    ghost use Rattle.cred_record.specs.declared.refusal.Refusal.TheVariants.{Memory};

    ghost from_gives = { λ _ r. r ≡ Memory };

    fn from(_e: NoMemory) -> Refusal {
        Refusal::Memory
    }
}

/// Why a rule refuses a call. A rule takes no memory, and can't run out of it.
#[derive(Clone, Copy, PartialEq, Eq, Debug)]
pub enum Denial {
    /// EPERM: the caller may not do this.
    Perm,
    /// EINVAL: the call takes no such argument.
    Invalid,
}

impl From<Denial> for Refusal {
    ghost use Rattle.std.specs.Prelude.{◌≡◌};
    ghost use Rattle.cred_record.specs.Answer.{refusal_of};

    ghost from_gives = { λ d r. r ≡ refusal_of d };

    fn from(d: Denial) -> Refusal {
        match d {
            Denial::Perm => Refusal::Perm,
            Denial::Invalid => Refusal::Invalid,
        }
    }
}
