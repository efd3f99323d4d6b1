//! The bits that sets of capabilities and securebits are kept as. These types have no model of
//! their own, since the table of `bitflags` borrows values of them.
ghost use Rattle.std.specs.Prelude.{⊤, [], ◌∷◌, codes};

use bitflags::{Flag, Flags, bitflag_items};

/// A set of bits, also of bits that no capability has.
#[derive(Clone, Copy, PartialEq, Eq, Debug)]
pub struct Bits(pub u64);

impl Bits {
    const ALL: &'static [Flag<Bits>] = &[Flag {
        name: "ALL",
        value: Bits(0x1ff_ffff_ffff),
    }];
}

impl Flags for Bits {
    type Bits = u64;

    ghost exact = { ⊤ };

    ghost table = { (codes "ALL", 0x1ff_ffff_ffff) ∷ [] };

    ghost set_of = { λ b. b.0 };

    fn flags<'a>() -> &'a [Flag<Bits>] {
        Bits::ALL
    }

    fn bits(&self) -> u64 {
        self.0
    }

    fn from_bits_retain(bits: u64) -> Bits {
        Bits(bits)
    }
}

/// The flags and locks of a task.
#[derive(Clone, Copy, PartialEq, Eq, Debug)]
pub struct SecureFlags(pub u8);

bitflag_items! {
    impl SecureFlags: u8 {
        const NOROOT = 1;
        const NOROOT_LOCKED = 2;
        const NO_SETUID_FIXUP = 4;
        const NO_SETUID_FIXUP_LOCKED = 8;
        const KEEP_CAPS = 16;
        const KEEP_CAPS_LOCKED = 32;
        const NO_CAP_AMBIENT_RAISE = 64;
        const NO_CAP_AMBIENT_RAISE_LOCKED = 128;
    }
}

impl Flags for SecureFlags {
    type Bits = u8;

    ghost exact = { ⊤ };

    ghost table = { (codes "NOROOT", 1) ∷ (codes "NOROOT_LOCKED", 2)
        ∷ (codes "NO_SETUID_FIXUP", 4) ∷ (codes "NO_SETUID_FIXUP_LOCKED", 8)
        ∷ (codes "KEEP_CAPS", 16) ∷ (codes "KEEP_CAPS_LOCKED", 32)
        ∷ (codes "NO_CAP_AMBIENT_RAISE", 64) ∷ (codes "NO_CAP_AMBIENT_RAISE_LOCKED", 128)
        ∷ [] };

    ghost set_of = { λ s. s.0 };

    fn flags<'a>() -> &'a [Flag<SecureFlags>] {
        SecureFlags::FLAGS
    }

    fn bits(&self) -> u8 {
        self.0
    }

    fn from_bits_retain(bits: u8) -> SecureFlags {
        SecureFlags(bits)
    }
}
