//! The versions of a record (capset(2), "Current details").
ghost use Rattle.std.specs.Prelude.{◌≡◌, ◌≤◌, ◌==◌, Some, None, if◌then◌else◌, IsTrue};
ghost use Rattle.cred_capdata.specs.Record as spec;

/// The version with one group of words, for the capabilities 0 to 31.
pub const VERSION_1: u8 = 1;

/// The word that names it.
const WORD_1: u32 = 0x1998_0330;

/// The word of version 2, which has two groups.
const WORD_2: u32 = 0x2007_1026;

/// The word of version 3, which has two groups.
const WORD_3: u32 = 0x2008_0522;

/// The bytes of version 1: a header of two words, and three words.
const LENGTH_1: usize = 20;

/// The bytes of the others: a header of two words, and six words.
pub const LENGTH: usize = 32;

/// The version that a word names.
pub fn version_of(word: u32) -> Option<u8>
    ensures { result
        ≡ (if word == spec.WORD_1 then Some 1
        else if word == spec.WORD_2 then Some 2
        else if word == spec.WORD_3 then Some 3
        else None) }
{
    match word {
        WORD_1 => Some(1),
        WORD_2 => Some(2),
        WORD_3 => Some(3),
        _ => None,
    }
}

/// The word that names a version.
pub fn word_of_version(version: u8) -> u32
    requires { IsTrue (spec.is_data_version version) }
    ensures { result ≡ spec.word_of_version version }
{
    match version {
        1 => WORD_1,
        2 => WORD_2,
        _ => WORD_3,
    }
}

/// How many bytes a record of a version has.
pub fn length_of(version: u8) -> usize
    ensures value { result ≡ spec.size_of version }
    ensures within { result ≤ LENGTH }
{
    if version == VERSION_1 {
        LENGTH_1
    } else {
        LENGTH
    }
}
