//! Sets of capabilities.
ghost use Rattle.std.specs.Prelude.{◌≡◌, ◌↔◌, IsTrue};
ghost use Rattle.std.specs.Option.{SomeIff};
ghost use Rattle.cred_caps.specs.Caps.{IsCaps, empty, full, has, with, without, union, meet, less};
ghost use Rattle.cred_caps.specs.Caps.{IsWithin};

use crate::bits::Bits;
use crate::cap::Cap;
use bitflags::Flags;
use std::marker::Model;

/// A set of capabilities, numbered 0 to 40 (capabilities(7)). Contracts see the number whose bit n
/// is 1 where capability n is in the set, under the words of `specs/Caps.antt`.
#[derive(Clone, Copy, PartialEq, Eq, Debug)]
pub struct CapSet {
    bits: Bits,
}

impl Model for CapSet {
    ghost use Rattle.cred_caps.specs.Caps.{Caps, IsCaps};

    ghost Value = { Caps };

    ghost view = { λ s. s.bits.0 };

    ghost invariant = { λ s. IsCaps s.bits.0 };

    ghost inverse = { λ n. record { bits = record { 0 = n } } };
}

#[tactic(auto, using(crate::proofs::CapsLemmas::caps))]
impl CapSet {
    /// The bits of all 41 capabilities.
    const FULL: u64 = 0x1ff_ffff_ffff;

    /// The set whose capabilities are the bits that are set. `None` exactly where one above 40 is.
    pub fn of_bits(bits: u64) -> Option<CapSet>
        ensures { SomeIff result (IsCaps bits) bits }
    {
        if bits > Self::FULL {
            return None;
        }
        Some(CapSet { bits: Bits(bits) })
    }

    /// The set of bits that are known to be one, which aren't tested.
    #[inline(always)]
    pub fn from_valid(bits: u64) -> CapSet
        requires { IsCaps bits }
        ensures { result ≡ bits }
    {
        CapSet { bits: Bits(bits) }
    }

    /// The set of the bits 0 to 40 that are set. Higher bits are dropped.
    pub fn cut(bits: u64) -> CapSet
        ensures { result ≡ meet bits full }
    {
        CapSet {
            bits: Bits(bits & Self::FULL),
        }
    }

    /// The number whose bit n is 1 where capability n is in the set, below 2 ^ 41.
    pub fn bits(&self) -> u64
        ensures value { result ≡ self.now }
        ensures caps { IsCaps result }
    {
        self.bits.0
    }

    /// No capability.
    pub fn empty() -> CapSet
        ensures { result ≡ empty }
    {
        CapSet { bits: Bits(0) }
    }

    /// All 41 capabilities.
    pub fn full() -> CapSet
        ensures { result ≡ full }
    {
        CapSet {
            bits: Bits(Self::FULL),
        }
    }

    /// Whether the capability is in the set.
    pub fn has(&self, c: Cap) -> bool
        ensures { result ≡ has self.now c }
    {
        self.bits.contains(Bits(1 << c.number()))
    }

    /// The set and this capability.
    pub fn with(&self, c: Cap) -> CapSet
        ensures { result ≡ with self.now c }
    {
        CapSet {
            bits: self.bits.union(Bits(1 << c.number())),
        }
    }

    /// The set less this capability.
    pub fn without(&self, c: Cap) -> CapSet
        ensures { result ≡ without self.now c }
    {
        CapSet {
            bits: self.bits.difference(Bits(1 << c.number())),
        }
    }

    /// What is in one set or the other.
    pub fn union(&self, other: &CapSet) -> CapSet
        ensures { result ≡ union self.now other.now }
    {
        CapSet {
            bits: self.bits.union(other.bits),
        }
    }

    /// What is in both sets.
    pub fn meet(&self, other: &CapSet) -> CapSet
        ensures { result ≡ meet self.now other.now }
    {
        CapSet {
            bits: self.bits.intersection(other.bits),
        }
    }

    /// What is in this set and not in the other.
    pub fn less(&self, other: &CapSet) -> CapSet
        ensures { result ≡ less self.now other.now }
    {
        CapSet {
            bits: self.bits.difference(other.bits),
        }
    }

    /// Whether each capability of this set is in the other.
    pub fn within(&self, other: &CapSet) -> bool
        ensures { IsTrue result ↔ IsWithin self.now other.now }
    {
        other.bits.contains(self.bits)
    }
}
