//! Bytes that a word spells.
ghost use Rattle.std.specs.Prelude.{◌≡◌, IfOk};
ghost use Rattle.std.specs.Option.{option_map};
ghost use Rattle.cred_spelling.specs.Spellings as spec;

use cred_ids::NoMemory;
use hex::FromHexError;
use std::alloc::Global;

/// The bytes that a word spells in hexadecimal: 2 to 128 digits of either case, an even number,
/// with or without `0x` before them, as getfattr(1) writes an attribute. `None` for any other word.
///
/// # Errors
///
/// `NoMemory` if the allocation of the bytes fails.
pub fn bytes_of(alloc: Global, word: &[u8]) -> Result<Option<Vec<u8>>, NoMemory>
    ensures { IfOk result (λ bytes. option_map (λ v. v.items) bytes ≡ spec.bytes_of word.now) }
{
    let digits = without_0x(word);
    if digits.len() < 2 || 128 < digits.len() {
        return Ok(None);
    }
    match hex::decode(alloc, digits) {
        Ok(bytes) => Ok(Some(bytes)),
        Err(FromHexError::OutOfMemory) => Err(NoMemory),
        Err(_) => Ok(None),
    }
}

/// The digits, without `0x` before them.
fn without_0x(word: &[u8]) -> &[u8]
    ensures { result.now ≡ spec.without_0x word.now }
{
    match word {
        [b'0', b'x', digits @ ..] => digits,
        _ => word,
    }
}
