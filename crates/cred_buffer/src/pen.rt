//! A text that is written from its start to its end.
ghost use Rattle.std.specs.Prelude.{◌≡◌, ◌≤◌, ◌+◌, ◌++◌, [], OnOk, IfOk, decimal, length};
ghost use Rattle.cred_report.specs.Numbers.{set_text};
ghost use Rattle.cred_report.specs.Room.{NUMBER};

use crate::digits::{Digits, copy_to_start};
use cred_caps::CapSet;
use cred_ids::NoMemory;
use cred_report::append_set;
use itoa::write_digits;
use std::alloc::Global;
use std::marker::Model;

/// How many bytes have room before the buffer grows: those of a write, and of some entries more.
const ROOM: usize = 68 * 1024;

/// Room for the parts of one entry behind the number of its line, but for names and lists of ids.
pub(crate) const PARTS: usize = 480;

/// How many digits a number of 64 bits has at most.
const DIGITS: usize = 20;

/// A text in a buffer that is filled from its start. A caller makes room first, once for many
/// pieces. Contracts see the text, and how many bytes have room after it.
#[derive(Drop, Debug)]
pub(crate) struct ForwardPen {
    alloc: Global,
    bytes: Vec<u8>,
    at: usize,
    // What was written last of each kind.
    line: Digits,
    label: Digits,
    cred: Digits,
}

impl Model for ForwardPen {
    ghost use Rattle.std.specs.Prelude.{◌≤◌, ◌-◌, take, vec_len};
    ghost use Rattle.cred_buffer.specs.Sheet.{Sheet};

    ghost Value = { Sheet };

    ghost view = { λ p. record { text = take p.at p.bytes.items; room = vec_len p.bytes - p.at } };

    ghost invariant = { λ p. p.at ≤ vec_len p.bytes };
}

impl ForwardPen {
    /// A pen that has written nothing.
    ///
    /// # Errors
    ///
    /// `NoMemory` if the allocation of its room fails.
    pub(crate) fn new(alloc: Global) -> Result<ForwardPen, NoMemory>
        ensures { IfOk result (λ pen. pen.text ≡ []) }
    {
        Ok(ForwardPen {
            alloc,
            bytes: vec![in alloc; 0; ROOM]?,
            at: 0,
            line: Digits::new(),
            label: Digits::new(),
            cred: Digits::new(),
        })
    }

    /// The text.
    #[inline(always)]
    pub(crate) fn items(&self) -> &[u8]
        ensures { result.now ≡ self.now.text }
    {
        &self.bytes[..self.at]
    }

    /// How many bytes the text has.
    #[inline(always)]
    pub(crate) fn len(&self) -> usize
        ensures { result ≡ length self.now.text }
    {
        self.at
    }

    /// Drops the text, and keeps the memory.
    pub(crate) fn clear(&mut self)
        ensures { self.new.text ≡ [] }
    {
        self.at = 0;
    }

    /// Makes room for this many bytes after the text.
    ///
    /// # Errors
    ///
    /// `NoMemory` where the buffer cannot grow. Nothing is said of its room then.
    #[inline(always)]
    pub(crate) fn reserve(&mut self, room: usize) -> Result<(), NoMemory>
        ensures text { OnOk result (self.new.text ≡ self.old.text) }
        ensures room { OnOk result (room ≤ self.new.room) }
    {
        if self.bytes.len() - self.at < room {
            self.grow(room)?;
        }
        Ok(())
    }

    /// Moves the text to the start of a buffer of twice the length at least, with this much room
    /// after it.
    #[cold]
    #[inline(never)]
    fn grow(&mut self, room: usize) -> Result<(), NoMemory>
        ensures text { OnOk result (self.new.text ≡ self.old.text) }
        ensures room { OnOk result (room ≤ self.new.room) }
    {
        let more = self.bytes.len().max(room);
        let size = self.at.checked_add(more).ok_or(NoMemory)?;
        let mut longer = vec![in self.alloc; 0; size]?;
        copy_to_start(self.items(), &mut longer);
        self.bytes = longer;
        Ok(())
    }

    /// Writes the bytes after the text.
    #[inline(always)]
    pub(crate) fn piece(&mut self, piece: &[u8])
        requires { length piece.now ≤ self.old.room }
        ensures text { self.new.text ≡ self.old.text ++ piece.now }
        ensures room { self.new.room + length piece.now ≡ self.old.room }
    {
        let end = self.at + piece.len();
        self.bytes[self.at..end].copy_from_slice(piece);
        self.at = end;
    }

    /// Makes room for the bytes, and writes them after the text.
    ///
    /// # Errors
    ///
    /// `NoMemory` where the buffer cannot grow. Nothing is said of what it holds then.
    pub(crate) fn append(&mut self, piece: &[u8]) -> Result<(), NoMemory>
        ensures { OnOk result (self.new.text ≡ self.old.text ++ piece.now) }
    {
        self.reserve(piece.len())?;
        self.piece(piece);
        Ok(())
    }

    /// Makes room for an entry, and writes the number of its line.
    ///
    /// # Errors
    ///
    /// `NoMemory` where the buffer cannot grow. Nothing is said of what it holds then.
    #[inline(always)]
    pub(crate) fn start(&mut self, line: u32) -> Result<(), NoMemory>
        ensures text { OnOk result (self.new.text ≡ self.old.text ++ decimal line) }
        ensures room { OnOk result (PARTS ≤ self.new.room) }
    {
        self.reserve(DIGITS + PARTS)?;
        self.line(line);
        Ok(())
    }

    /// Writes the word after the text, in pieces of 16, 8, 4, 2 bytes and one.
    #[inline(always)]
    pub(crate) fn word(&mut self, word: &str)
        requires { length word.now ≤ self.old.room }
        ensures text { self.new.text ≡ self.old.text ++ word.now }
        ensures room { self.new.room + length word.now ≡ self.old.room }
    {
        let word = word.as_bytes();
        if word.len() >= 32 {
            return self.piece(word);
        }
        let word = self.start_of::<16>(word);
        let word = self.start_of::<8>(word);
        let word = self.start_of::<4>(word);
        let word = self.start_of::<2>(word);
        self.piece(word);
    }

    /// Writes the first `N` bytes of the word after the text, if it has as many, and returns the
    /// bytes after them. They are copied to an array first, which can't overlap the buffer: so the
    /// copy from there needs no test for that. Where the word is a constant, nothing of the first
    /// copy is left in the program.
    #[inline(always)]
    fn start_of<'w, const N: usize>(&mut self, word: &'w [u8]) -> &'w [u8]
        requires room { length word.now ≤ self.old.room }
        requires size { N ≤ 32 }
        ensures text { self.new.text ++ result.now ≡ self.old.text ++ word.now }
        ensures room { self.new.room + length word.now ≡ self.old.room + length result.now }
    {
        match word.split_first_chunk::<N>() {
            Some((first, rest)) => {
                let own = *first;
                self.piece(&own);
                rest
            }
            None => word,
        }
    }

    /// Writes the number after the text, in decimal. Most numbers of a report have one digit or
    /// two, which need no call.
    #[inline(always)]
    #[tactic(auto, using(std::proofs::lemmas::Fmt::decimal_digit, crate::proofs::Decimal::of_two))]
    pub(crate) fn number(&mut self, number: u64)
        requires { NUMBER ≤ self.old.room }
        ensures text { self.new.text ≡ self.old.text ++ decimal number }
        ensures room { self.old.room ≤ self.new.room + NUMBER }
    {
        if number < 10 {
            self.piece(&[b'0' + number as u8])
        } else if number < 100 {
            self.piece(&[b'0' + (number / 10) as u8, b'0' + (number % 10) as u8])
        } else {
            self.digits(number)
        }
    }

    /// Writes the number of a slot after the text, in decimal. Most slots of a long script have
    /// three digits.
    #[inline(always)]
    #[tactic(auto, using(crate::proofs::Decimal::of_three))]
    pub(crate) fn slot(&mut self, number: u32)
        requires { NUMBER ≤ self.old.room }
        ensures text { self.new.text ≡ self.old.text ++ decimal number }
        ensures room { self.old.room ≤ self.new.room + NUMBER }
    {
        if number < 100 {
            self.number(u64::from(number))
        } else if number < 1000 {
            self.piece(&[
                b'0' + (number / 100) as u8,
                b'0' + (number / 10 % 10) as u8,
                b'0' + (number % 10) as u8,
            ])
        } else {
            self.digits(u64::from(number))
        }
    }

    /// Writes a space and the set after the text, in hexadecimal digits, and makes room for the
    /// entry's other parts.
    ///
    /// # Errors
    ///
    /// `NoMemory` where the buffer cannot grow. Nothing is said of what it holds then.
    #[inline(never)]
    pub(crate) fn set_digits(&mut self, set: CapSet) -> Result<(), NoMemory>
        ensures text { OnOk result (self.new.text ≡ self.old.text ++ set_text set) }
        ensures room { OnOk result (PARTS ≤ self.new.room) }
    {
        let mut text = Vec::new(self.alloc);
        append_set(&mut text, set)?;
        self.append(&text)?;
        self.reserve(PARTS)
    }

    /// Writes the number of a line after the text.
    #[inline(always)]
    pub(crate) fn line(&mut self, number: u32)
        requires { NUMBER ≤ self.old.room }
        ensures text { self.new.text ≡ self.old.text ++ decimal number }
        ensures room { self.old.room ≤ self.new.room + NUMBER }
    {
        self.at = self.line.write(number, &mut self.bytes, self.at);
    }

    /// Writes a label after the text.
    #[inline(always)]
    pub(crate) fn label(&mut self, number: u32)
        requires { NUMBER ≤ self.old.room }
        ensures text { self.new.text ≡ self.old.text ++ decimal number }
        ensures room { self.old.room ≤ self.new.room + NUMBER }
    {
        self.at = self.label.write_by_tens(number, &mut self.bytes, self.at);
    }

    /// Writes the number of a credential after the text.
    #[inline(always)]
    pub(crate) fn cred(&mut self, number: u64)
        requires { NUMBER ≤ self.old.room }
        ensures text { self.new.text ≡ self.old.text ++ decimal number }
        ensures room { self.old.room ≤ self.new.room + NUMBER }
    {
        match u32::try_from(number) {
            Ok(number) => self.at = self.cred.write_by_tens(number, &mut self.bytes, self.at),
            Err(_) => self.digits(number),
        }
    }

    /// Writes a number of three digits or more after the text.
    #[inline(never)]
    fn digits(&mut self, number: u64)
        requires { NUMBER ≤ self.old.room }
        ensures text { self.new.text ≡ self.old.text ++ decimal number }
        ensures room { self.old.room ≤ self.new.room + NUMBER }
    {
        let mut digits = [b'0'; DIGITS];
        let first = write_digits(number, &mut digits, DIGITS);
        self.piece(&digits[first..]);
    }
}
