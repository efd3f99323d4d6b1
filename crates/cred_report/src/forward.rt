//! Pieces of a text at the end of a buffer.
ghost use Rattle.std.specs.Prelude.{◌≡◌, ◌++◌, OnOk, decimal};
ghost use Rattle.cred_report.specs.Numbers.{set_text, flag_text};

use crate::numbers::{MAX_DIGITS, write_hex_digits};
use cred_caps::CapSet;
use cred_ids::NoMemory;
use itoa::Buffer;

/// Appends the word.
///
/// # Errors
///
/// `NoMemory` if the buffer cannot grow: nothing is said of what it holds then.
pub fn append_word(out: &mut Vec<u8>, word: &str) -> Result<(), NoMemory>
    ensures { OnOk result (out.new.items ≡ out.old.items ++ word.now) }
{
    Ok(out.extend_from_slice(word.as_bytes())?)
}

/// Appends the word and the number, in decimal.
///
/// # Errors
///
/// `NoMemory` if the buffer cannot grow: nothing is said of what it holds then.
pub fn append_number(out: &mut Vec<u8>, word: &str, number: u32) -> Result<(), NoMemory>
    ensures { OnOk result (out.new.items ≡ out.old.items ++ (word.now ++ decimal number)) }
{
    out.extend_from_slice(word.as_bytes())?;
    Ok(out.extend_from_slice(Buffer::new().format(number).as_bytes())?)
}

/// Appends a space, and the set in lower-case hexadecimal.
///
/// # Errors
///
/// `NoMemory` if the buffer cannot grow: nothing is said of what it holds then.
pub fn append_set(out: &mut Vec<u8>, set: CapSet) -> Result<(), NoMemory>
    ensures { OnOk result (out.new.items ≡ out.old.items ++ set_text set) }
{
    append_word(out, " ")?;
    let mut digits = [0; MAX_DIGITS];
    let first = write_hex_digits(&mut digits, set.bits());
    Ok(out.extend_from_slice(&digits[first..])?)
}

/// Appends a space, and the flag as 0 or 1.
///
/// # Errors
///
/// `NoMemory` if the buffer cannot grow: nothing is said of what it holds then.
pub fn append_flag(out: &mut Vec<u8>, flag: bool) -> Result<(), NoMemory>
    ensures { OnOk result (out.new.items ≡ out.old.items ++ flag_text flag) }
{
    if flag {
        append_word(out, " 1")
    } else {
        append_word(out, " 0")
    }
}
