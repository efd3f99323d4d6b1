//! A set of capabilities in two words of an attribute: the low one has the capabilities 0 to 31,
//! the high one the others from its lowest bit on.
ghost use Rattle.std.specs.Prelude.{◌<◌, ◌^◌};
ghost use Rattle.cred_rules.specs.Attribute.{SpellsSet};

use cred_caps::CapSet;

/// The low and the high word of a set.
#[derive(Clone, Copy, PartialEq, Eq, Debug)]
pub struct SetWords {
    /// Capability n is bit n.
    pub low: u32,
    /// Capability 32 + n is bit n.
    pub high: u32,
}

/// The set that two words spell. Bits that no capability has are left out.
pub fn set_of(words: SetWords) -> CapSet
    ensures { SpellsSet words.low words.high result }
{
    CapSet::cut(u64::from(words.high) << 32 | u64::from(words.low))
}

/// The two words that spell a set, with no bit that no capability has.
pub fn words_of(set: CapSet) -> SetWords
    ensures spells { SpellsSet result.low result.high set }
    ensures canonical { result.high < 2 ^ 9 }
{
    let bits = set.bits();
    SetWords {
        low: (bits & 0xffff_ffff) as u32,
        high: (bits >> 32) as u32,
    }
}
