//! The digits of the number that was written last.
ghost use Rattle.std.specs.Prelude.{◌≡◌, ◌≤◌, ◌+◌, ◌++◌, decimal, length, take};
ghost use Rattle.cred_report.specs.Room.{NUMBER};

use itoa::write_digits;
use std::marker::Model;

/// How many digits are kept at most, those of a number of 32 bits among them.
const PLACES: usize = 16;

/// Copies the text to the start of the buffer.
pub(crate) fn copy_to_start(text: &[u8], buf: &mut [u8])
    requires { length text.now ≤ length buf.old }
    ensures length { length buf.new ≡ length buf.old }
    ensures written { take (length text.now) buf.new ≡ text.now }
{
    buf[..text.len()].copy_from_slice(text);
}

/// The decimal digits of a number. What is written next is mostly the same number, or the one after
/// it, which mostly differs in the last digit alone: then only that one is found by division.
/// Contracts see the number.
#[derive(Drop, Debug)]
pub(crate) struct Digits {
    number: u32,
    /// They stand at the start, and are copied with what is behind them: a copy of a constant
    /// length takes no call.
    digits: [u8; PLACES],
    len: usize,
}

impl Model for Digits {
    ghost use Rattle.std.specs.Prelude.{ℕ, ◌≡◌, ◌<◌, ◌≤◌, decimal, take};

    ghost Value = { ℕ };

    ghost view = { λ d. d.number };

    ghost invariant = { λ d.
        (0 < d.len) × (d.len ≤ 16) × (take d.len d.digits ≡ decimal d.number) };
}

impl Digits {
    /// The digits of 0.
    #[tactic(auto, using(std::proofs::lemmas::Fmt::decimal_digit))]
    pub(crate) fn new() -> Digits
        ensures { result ≡ 0 }
    {
        Digits {
            number: 0,
            digits: [b'0'; PLACES],
            len: 1,
        }
    }

    /// Keeps the digits of this number from now on.
    #[inline(always)]
    fn keep(&mut self, number: u32)
        ensures { self.new ≡ number }
    {
        if self.number != number {
            self.change(number);
        }
    }

    /// The same, where it is another number: only the last digit changes where it is the one after
    /// the number that is kept, unless that one ends in 9.
    #[inline(always)]
    fn change(&mut self, number: u32)
        ensures { self.new ≡ number }
    {
        let last = number % 10;
        if last != 0 && number - 1 == self.number {
            self.digits[self.len - 1] = b'0' + last as u8;
            self.number = number;
        } else {
            self.divide(number);
        }
    }

    /// The same, for any number.
    #[cold]
    #[inline(never)]
    fn divide(&mut self, number: u32)
        ensures { self.new ≡ number }
    {
        let mut digits = [b'0'; PLACES];
        let first = write_digits(u64::from(number), &mut digits, PLACES);
        copy_to_start(&digits[first..], &mut self.digits);
        self.len = PLACES - first;
        self.number = number;
    }

    /// Writes the digits so that they begin at `at`, and returns where they end.
    #[inline(always)]
    fn put(&self, buf: &mut [u8], at: usize) -> usize
        requires { at + PLACES ≤ length buf.old }
        ensures within { result ≤ at + PLACES }
        ensures length { length buf.new ≡ length buf.old }
        ensures written { take result buf.new ≡ take at buf.old ++ decimal self.now }
    {
        // A copy, which the buffer can't overlap: so it takes no test for that.
        let digits = self.digits;
        buf[at..at + PLACES].copy_from_slice(&digits);
        at + self.len
    }

    /// Writes the number so that it begins at `at`, and returns where it ends.
    #[inline(always)]
    pub(crate) fn write(&mut self, number: u32, buf: &mut [u8], at: usize) -> usize
        requires { at + NUMBER ≤ length buf.old }
        ensures within { result ≤ at + NUMBER }
        ensures length { length buf.new ≡ length buf.old }
        ensures written { take result buf.new ≡ take at buf.old ++ decimal number }
    {
        self.keep(number);
        self.put(buf, at)
    }

    /// The same, but the digits that are kept are all but the last.
    #[inline(always)]
    pub(crate) fn write_by_tens(&mut self, number: u32, buf: &mut [u8], at: usize) -> usize
        requires { at + NUMBER ≤ length buf.old }
        ensures within { result ≤ at + NUMBER }
        ensures length { length buf.new ≡ length buf.old }
        ensures written { take result buf.new ≡ take at buf.old ++ decimal number }
    {
        let last = b'0' + (number % 10) as u8;
        if number < 10 {
            buf[at] = last;
            return at + 1;
        }
        self.keep(number / 10);
        let end = self.put(buf, at);
        buf[end] = last;
        end + 1
    }
}
