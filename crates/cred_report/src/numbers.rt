//! Sets, ids, arguments and flags, each after a space.
ghost use Rattle.std.specs.Prelude.{◌≡◌, ◌<◌, ◌≤◌, ◌+◌, ◌++◌, drop, false, OnOk};
ghost use Rattle.std.specs.Fmt.{digit_glyph};
ghost use Rattle.cred_report.specs.Numbers.{hexadecimal, set_text, ids_text, arg_text, flag_text};
ghost use Rattle.cred_report.specs.Room.{ARG, SET, SETS, FLAG};

use crate::pen::{PARTS, Pen};
use crate::words::{prepend_number, prepend_word};
use cred_caps::CapSet;
use cred_ids::{Arg, Id, NoMemory};

/// How many hexadecimal digits a number of 64 bits has at most.
pub(crate) const MAX_DIGITS: usize = 16;

/// The digit of a number below 16.
fn digit_of(number: u64) -> u8
    requires { number < 16 }
    ensures { result ≡ digit_glyph false number }
{
    if number < 10 {
        b'0' + number as u8
    } else {
        b'a' + (number as u8 - 10)
    }
}

/// Writes the number's hexadecimal digits to the end of the buffer, and returns where they begin.
pub(crate) fn write_hex_digits(digits: &mut [u8; MAX_DIGITS], number: u64) -> usize
    ensures within { result < MAX_DIGITS }
    ensures digits { drop result digits.new ≡ hexadecimal number }
{
    let mut first = MAX_DIGITS - 1;
    let mut rest = number;
    while rest >= 16 {
        digits[first] = digit_of(rest % 16);
        rest /= 16;
        first -= 1;
    }
    digits[first] = digit_of(rest);
    first
}

/// Writes a space, and the set in lower-case hexadecimal. Most sets of a report are empty or full:
/// those are written as words, without a division.
pub fn prepend_set(out: &mut Pen, set: CapSet)
    requires { SET ≤ out.old.room }
    ensures text { out.new.text ≡ set_text set ++ out.old.text }
    ensures room { out.old.room ≤ out.new.room + SET }
{
    match set.bits() {
        0 => prepend_word(out, " 0"),
        0x1ff_ffff_ffff => prepend_word(out, " 1ffffffffff"),
        bits => prepend_bits(out, bits),
    }
}

/// Writes a space, and the number in lower-case hexadecimal.
fn prepend_bits(out: &mut Pen, bits: u64)
    requires { SET ≤ out.old.room }
    ensures text { out.new.text ≡ set_text bits ++ out.old.text }
    ensures room { out.old.room ≤ out.new.room + SET }
{
    let mut digits = [0; MAX_DIGITS];
    let first = write_hex_digits(&mut digits, bits);
    out.piece(&digits[first..]);
    prepend_word(out, " ")
}

/// Writes three sets.
pub fn prepend_sets(out: &mut Pen, first: CapSet, second: CapSet, third: CapSet)
    requires { SETS ≤ out.old.room }
    ensures text { out.new.text
        ≡ (set_text first ++ set_text second ++ set_text third) ++ out.old.text }
    ensures room { out.old.room ≤ out.new.room + SETS }
{
    prepend_set(out, third);
    prepend_set(out, second);
    prepend_set(out, first)
}

/// Writes the ids in their order, and makes room for the entry's other parts.
///
/// # Errors
///
/// `NoMemory` where the buffer cannot grow. Nothing is said of what it holds then.
pub fn prepend_ids(out: &mut Pen, ids: &[Id]) -> Result<(), NoMemory>
    ensures text { OnOk result (out.new.text ≡ ids_text ids.now ++ out.old.text) }
    ensures room { OnOk result (PARTS ≤ out.new.room) }
{
    out.reserve(PARTS)?;
    for id in ids.iter().rev() {
        prepend_number(out, " ", id.number());
        out.reserve(PARTS)?;
    }
    Ok(())
}

/// Writes the argument of an id call.
pub fn prepend_arg(out: &mut Pen, arg: Arg)
    requires { ARG ≤ out.old.room }
    ensures text { out.new.text ≡ arg_text arg ++ out.old.text }
    ensures room { out.old.room ≤ out.new.room + ARG }
{
    match arg {
        Arg::Keep => prepend_word(out, " -1"),
        Arg::Set(id) => prepend_number(out, " ", id.number()),
    }
}

/// Writes a space, and the flag as 0 or 1.
pub fn prepend_flag(out: &mut Pen, flag: bool)
    requires { FLAG ≤ out.old.room }
    ensures text { out.new.text ≡ flag_text flag ++ out.old.text }
    ensures room { out.old.room ≤ out.new.room + FLAG }
{
    if flag {
        prepend_word(out, " 1")
    } else {
        prepend_word(out, " 0")
    }
}
