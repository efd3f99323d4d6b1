//! The digits that numbers which are written one after another have in common.
ghost use Rattle.std.specs.Prelude.{◌≡◌, ◌≤◌, ◌+◌, ◌++◌, decimal, drop, length};
ghost use Rattle.cred_report.specs.Room.{NUMBER};

use itoa::write_digits;
use std::marker::Model;

/// How many digits are kept at most, those of a number of 32 bits among them.
const PLACES: usize = 16;

/// All digits but the last of the number that was written before. The numbers of lines, and those
/// of labels, mostly differ from the ones before them in the last digit alone, and then only that
/// one is found by division. Contracts see the number that these digits spell.
#[derive(Drop, Debug)]
pub(crate) struct Tens {
    number: u32,
    /// They stand at the end, and are copied with what is before them: a copy of a constant length
    /// takes no call.
    digits: [u8; PLACES],
    first: usize,
}

impl Model for Tens {
    ghost use Rattle.std.specs.Prelude.{ℕ, ◌≡◌, ◌≤◌, decimal, drop};

    ghost Value = { ℕ };

    ghost view = { λ t. t.number };

    ghost invariant = { λ t. (t.first ≤ 16) × (drop t.first t.digits ≡ decimal t.number) };
}

impl Tens {
    /// The digits of 0.
    #[tactic(auto, using(std::proofs::lemmas::Fmt::decimal_digit))]
    pub(crate) fn new() -> Tens
        ensures { result ≡ 0 }
    {
        Tens {
            number: 0,
            digits: [b'0'; PLACES],
            first: PLACES - 1,
        }
    }

    /// Keeps the digits of this number from now on.
    #[cold]
    #[inline(never)]
    fn keep(&mut self, number: u32)
        ensures { self.new ≡ number }
    {
        self.first = write_digits(u64::from(number), &mut self.digits, PLACES);
        self.number = number;
    }

    /// Writes the digits so that they end at `end`, and returns where they start.
    #[inline(always)]
    fn put(&self, buf: &mut [u8], end: usize) -> usize
        requires { (PLACES ≤ end) × (end ≤ length buf.old) }
        ensures within { (result ≤ end) × (end ≤ result + PLACES) }
        ensures length { length buf.new ≡ length buf.old }
        ensures written { drop result buf.new ≡ decimal self.now ++ drop end buf.old }
    {
        let from = end - PLACES;
        // A copy, which the buffer can't overlap: so it takes no test for that.
        let digits = self.digits;
        buf[from..end].copy_from_slice(&digits);
        from + self.first
    }

    /// Writes the number so that it ends at `end`, and returns where it starts.
    #[inline(always)]
    pub(crate) fn write(&mut self, number: u32, buf: &mut [u8], end: usize) -> usize
        requires { (NUMBER ≤ end) × (end ≤ length buf.old) }
        ensures within { (result ≤ end) × (end ≤ result + NUMBER) }
        ensures length { length buf.new ≡ length buf.old }
        ensures written { drop result buf.new ≡ decimal number ++ drop end buf.old }
    {
        buf[end - 1] = b'0' + (number % 10) as u8;
        let tens = number / 10;
        if tens == 0 {
            return end - 1;
        }
        if self.number != tens {
            self.keep(tens);
        }
        self.put(buf, end - 1)
    }
}
