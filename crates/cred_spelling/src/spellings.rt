//! What one word spells.
ghost use Rattle.std.specs.Prelude.{◌≡◌, ◌≤◌, ◌<◌, ◌^◌, IfSome, IsTrue, SomeIff, length};
ghost use Rattle.std.specs.Prelude.{slice_index};
ghost use Rattle.std.specs.List.{list_all};
ghost use Rattle.std.specs.Char.{is_ascii_digit, digit_value};
ghost use Rattle.std.specs.Str.{bytes_eq};
ghost use Rattle.cred_spelling.specs.Spellings as spec;

use cred_caps::cap_of_name;
use std::str;

/// Whether the word is this text.
pub fn is(word: &[u8], text: &str) -> bool
    ensures { result ≡ bytes_eq word.now text.now }
{
    word == text.as_bytes()
}

/// A number in decimal, without leading zeros.
#[inline(always)]
pub(crate) fn number_of(word: &[u8]) -> Option<u32>
    ensures { result ≡ spec.number_of word.now }
{
    match word {
        [b'0'] => Some(0),
        [digit @ b'1'..=b'9'] => Some(u32::from(*digit - b'0')),
        [b'1'..=b'9', ..] => parsed(word),
        _ => None,
    }
}

#[inline(never)]
fn parsed(word: &[u8]) -> Option<u32>
    requires some { 1 ≤ length word.now }
    requires low { 49 ≤ slice_index word.now 0 }
    ensures { result ≡ spec.number_of word.now }
{
    if word.len() <= 9 {
        short(word)
    } else {
        long(word)
    }
}

/// Nine digits at most are a number.
fn short(word: &[u8]) -> Option<u32>
    requires few { length word.now ≤ 9 }
    requires some { 1 ≤ length word.now }
    requires low { 49 ≤ slice_index word.now 0 }
    ensures { result ≡ spec.number_of word.now }
{
    decimal(word)
}

/// The number that digits write.
fn decimal(word: &[u8]) -> Option<u32>
    requires { length word.now ≤ 9 }
    ensures value { result ≡ spec.decimal_of word.now }
    ensures small { IfSome result (λ number. number < 2 ^ 32) }
{
    let mut number = 0;
    for byte in word {
        let digit = digit_of(*byte)?;
        number = number * 10 + digit;
    }
    Some(number)
}

fn digit_of(byte: u8) -> Option<u32>
    ensures value { SomeIff result (IsTrue (is_ascii_digit byte)) (digit_value byte) }
    ensures small { IfSome result (λ digit. digit ≤ 9) }
{
    if byte.is_ascii_digit() {
        Some(u32::from(byte - b'0'))
    } else {
        None
    }
}

fn long(word: &[u8]) -> Option<u32>
    requires some { 1 ≤ length word.now }
    requires low { 49 ≤ slice_index word.now 0 }
    ensures { result ≡ spec.number_of word.now }
{
    match str::from_utf8(word) {
        Ok(text) => text.parse().ok(),
        Err(_) => None,
    }
}

/// The number of the capability that has this name, with its prefix `CAP_`.
pub(crate) fn cap_named(word: &[u8]) -> Option<u32>
    ensures { result ≡ spec.cap_named word.now }
{
    match str::from_utf8(word) {
        Ok(name) => Some(cap_of_name(name)?.number()),
        Err(_) => None,
    }
}

/// The number that hexadecimal digits write, of either case.
pub(crate) fn hexadecimal_number(word: &[u8]) -> Option<u64>
    requires { length word.now ≤ 16 }
    ensures { result ≡ spec.hexadecimal_number word.now }
{
    let mut number = 0;
    for byte in word {
        let digit = char::from(*byte).to_digit(16)?;
        number = number * 16 + u64::from(digit);
    }
    Some(number)
}

/// A letter, and a number from the least to the most.
pub(crate) fn letter_number(letter: u8, least: u32, most: u32, word: &[u8]) -> Option<u32>
    ensures value { result ≡ spec.letter_number letter least most word.now }
    ensures within { IfSome result (λ number. number ≤ most) }
{
    match word {
        [first, digits @ ..] if *first == letter => { number_within(least, most, digits) }
        _ => None,
    }
}

/// A number from the least to the most.
pub(crate) fn number_within(least: u32, most: u32, word: &[u8]) -> Option<u32>
    ensures value { result ≡ spec.number_within least most word.now }
    ensures within { IfSome result (λ number. number ≤ most) }
{
    let number = number_of(word)?;
    if least <= number && number <= most {
        Some(number)
    } else {
        None
    }
}

/// Whether the word is a file's name: 1 to 32 letters, digits, `_`, `.` and `-`, a letter first.
pub(crate) fn is_name(word: &[u8]) -> bool
    ensures { result ≡ spec.is_name word.now }
{
    match word {
        [first, rest @ ..] => { is_letter(*first) && are_name_bytes(rest) && rest.len() <= 31 }
        [] => false,
    }
}

fn are_name_bytes(bytes: &[u8]) -> bool
    ensures { result ≡ list_all spec.is_name_byte bytes.now }
{
    bytes.iter().all(|byte| is_name_byte(*byte))
}

fn is_letter(byte: u8) -> bool
    ensures { result ≡ spec.is_letter byte }
{
    matches!(byte, b'A'..=b'Z' | b'a'..=b'z')
}

fn is_name_byte(byte: u8) -> bool
    ensures { result ≡ spec.is_name_byte byte }
{
    is_letter(byte) || matches!(byte, b'0'..=b'9' | b'_' | b'.' | b'-')
}

fn octal_of(byte: u8) -> Option<u16>
    ensures value { result ≡ spec.octal_of byte }
    ensures digit { IfSome result (λ digit. digit ≤ 7) }
{
    match byte {
        b'0'..=b'7' => Some(u16::from(byte - b'0')),
        _ => None,
    }
}

/// A file's mode: four octal digits.
pub fn mode_of(word: &[u8]) -> Option<u16>
    ensures value { result ≡ spec.mode_of word.now }
    ensures mode { IfSome result (λ mode. mode ≤ 4095) }
{
    match word {
        [a, b, c, d] => {
            let high = 512 * octal_of(*a)? + 64 * octal_of(*b)?;
            Some(high + 8 * octal_of(*c)? + octal_of(*d)?)
        }
        _ => None,
    }
}
