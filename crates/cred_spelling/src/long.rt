//! Numbers of 64 bits.
ghost use Rattle.std.specs.Prelude.{◌≡◌, ◌≤◌, length, slice_index};
ghost use Rattle.cred_spelling.specs.Spellings as spec;

use std::str;

/// A number of 64 bits in decimal, without leading zeros.
pub fn long_of(word: &[u8]) -> Option<u64>
    ensures { result ≡ spec.long_of word.now }
{
    match word {
        [b'0'] => Some(0),
        [b'1'..=b'9', ..] => parsed(word),
        _ => None,
    }
}

fn parsed(word: &[u8]) -> Option<u64>
    requires some { 1 ≤ length word.now }
    requires low { 49 ≤ slice_index word.now 0 }
    ensures { result ≡ spec.long_of word.now }
{
    match str::from_utf8(word) {
        Ok(text) => text.parse().ok(),
        Err(_) => None,
    }
}
