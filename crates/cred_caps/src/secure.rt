//! The securebits of a task.
ghost use Rattle.std.specs.Prelude.{◌≡◌, ◌≤◌, ◌^◌};
ghost use Rattle.std.specs.Option.{SomeIff};
ghost use Rattle.cred_caps.specs.Secure as spec;
ghost use Rattle.cred_caps.specs.Secure.{flag_place, is_set, is_locked, with_secure_flag};

use crate::bits::SecureFlags;
use bitflags::Flags;
use std::marker::Model;

/// The four securebits flags (capabilities(7)). The bit after a flag's own is its lock: while that
/// is set, the flag stays as it is.
#[derive(Clone, Copy, PartialEq, Eq, Debug)]
pub enum Flag {
    /// SECBIT_NOROOT, bit 0: execve grants root no capabilities.
    NoRoot,
    /// SECBIT_NO_SETUID_FIXUP, bit 2: a change of user ids leaves the capability sets alone.
    NoSetuidFixup,
    /// SECBIT_KEEP_CAPS, bit 4: a task whose user ids all leave root keeps its permitted set.
    KeepCaps,
    /// SECBIT_NO_CAP_AMBIENT_RAISE, bit 6: no capability can be added to the ambient set.
    NoAmbientRaise,
}

/// The greatest number of securebits: every flag and every lock is set.
pub const LAST_BITS: u32 = 255;

/// That constant is the definitions'.
pub fn last_bits_is_the_definitions()
    ensures { LAST_BITS ≡ spec.LAST_BITS }
{}

/// The securebits of a task, the flags and their locks. Contracts see the number of its bits, which
/// is at most `LAST_BITS`.
#[derive(Clone, Copy, PartialEq, Eq, Debug)]
pub struct SecureBits {
    bits: SecureFlags,
}

impl Model for SecureBits {
    ghost use Rattle.std.specs.Prelude.{ℕ};

    ghost Value = { ℕ };

    ghost view = { λ s. s.bits.0 };

    ghost inverse = { λ n. record { bits = record { 0 = n } } };
}

/// The bit of a flag, alone.
fn bit(f: Flag) -> SecureFlags
    ensures { result.0 ≡ 2 ^ flag_place f }
{
    match f {
        Flag::NoRoot => SecureFlags(1),
        Flag::NoSetuidFixup => SecureFlags(4),
        Flag::KeepCaps => SecureFlags(16),
        Flag::NoAmbientRaise => SecureFlags(64),
    }
}

#[tactic(auto, using(crate::proofs::SecureLemmas::flags))]
impl SecureBits {
    /// No flag and no lock.
    pub fn none() -> SecureBits
        ensures { result ≡ 0 }
    {
        SecureBits {
            bits: SecureFlags(0),
        }
    }

    /// The securebits of a number. `None` exactly above `LAST_BITS`.
    pub fn new(n: u32) -> Option<SecureBits>
        ensures { SomeIff result (n ≤ spec.LAST_BITS) n }
    {
        if n > LAST_BITS {
            return None;
        }
        Some(SecureBits {
            bits: SecureFlags(n as u8),
        })
    }

    /// The bits as a number, at most `LAST_BITS`.
    pub fn number(&self) -> u32
        ensures value { result ≡ self.now }
        ensures small { result ≤ spec.LAST_BITS }
    {
        u32::from(self.bits.0)
    }

    /// Whether the flag is set.
    pub fn flag(&self, f: Flag) -> bool
        ensures { result ≡ is_set self.now f }
    {
        self.bits.contains(bit(f))
    }

    /// Whether the lock of the flag is set.
    pub fn locked(&self, f: Flag) -> bool
        ensures { result ≡ is_locked self.now f }
    {
        self.bits.contains(match f {
            Flag::NoRoot => SecureFlags(2),
            Flag::NoSetuidFixup => SecureFlags(8),
            Flag::KeepCaps => SecureFlags(32),
            Flag::NoAmbientRaise => SecureFlags(128),
        })
    }

    /// The same bits with the flag set where `on` is true, and unset where it is false. Every other
    /// flag and every lock stay, also the lock of this flag: whether the flag may change is for the
    /// caller to ask.
    pub fn with(&self, f: Flag, on: bool) -> SecureBits
        ensures { result ≡ with_secure_flag self.now f on }
    {
        SecureBits {
            bits: if on {
                self.bits.union(bit(f))
            } else {
                self.bits.difference(bit(f))
            },
        }
    }
}
