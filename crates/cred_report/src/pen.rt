//! A text that is written from its end to its start.
ghost use Rattle.std.specs.Prelude.{◌≡◌, ◌≤◌, ◌+◌, ◌++◌, [], OnOk, decimal, length};
ghost use Rattle.cred_report.specs.Room.{NUMBER};

use crate::tens::Tens;
use cred_ids::NoMemory;
use itoa::write_digits;
use std::alloc::Global;
use std::marker::Model;

/// Room for the parts of one entry, but for names and lists of ids. It is more than they take, as
/// `specs/Room.antt` adds up.
pub const PARTS: usize = 512;

/// A text in a buffer that is filled from its end, so that the digits of a number come out in the
/// order in which division gives them, and none is moved. A caller makes room first, once for many
/// pieces. Contracts see the text, and how many bytes have room before it.
#[derive(Drop, Debug)]
pub struct Pen {
    alloc: Global,
    bytes: Vec<u8>,
    at: usize,
    // What was written last of each kind.
    line: Tens,
    label: Tens,
    cred: Tens,
    slot: Tens,
}

impl Model for Pen {
    ghost use Rattle.std.specs.Prelude.{◌≤◌, drop, vec_len};
    ghost use Rattle.cred_report.specs.Page.{Page};

    ghost Value = { Page };

    ghost view = { λ p. record { text = drop p.at p.bytes.items; room = p.at } };

    ghost invariant = { λ p. p.at ≤ vec_len p.bytes };
}

impl Pen {
    /// A pen that has written nothing.
    pub fn new(alloc: Global) -> Pen
        ensures { result.text ≡ [] }
    {
        Pen {
            alloc,
            bytes: Vec::new(alloc),
            at: 0,
            line: Tens::new(),
            label: Tens::new(),
            cred: Tens::new(),
            slot: Tens::new(),
        }
    }

    /// The text.
    pub fn items(&self) -> &[u8]
        ensures { result.now ≡ self.now.text }
    {
        &self.bytes[self.at..]
    }

    /// Drops the text, and keeps the memory.
    pub fn clear(&mut self)
        ensures text { self.new.text ≡ [] }
        ensures room { self.new.room ≡ self.old.room + length self.old.text }
    {
        self.at = self.bytes.len();
    }

    /// Makes room for this many bytes before the text.
    ///
    /// # Errors
    ///
    /// `NoMemory` where the buffer cannot grow. Nothing is said of its room then.
    #[inline(always)]
    pub fn reserve(&mut self, room: usize) -> Result<(), NoMemory>
        ensures text { OnOk result (self.new.text ≡ self.old.text) }
        ensures room { OnOk result (room ≤ self.new.room) }
    {
        if self.at < room {
            self.grow(room)?;
        }
        Ok(())
    }

    /// Moves the text to the end of a buffer of twice the length at least, with this much room
    /// before it.
    #[cold]
    #[inline(never)]
    fn grow(&mut self, room: usize) -> Result<(), NoMemory>
        ensures text { OnOk result (self.new.text ≡ self.old.text) }
        ensures room { OnOk result (room ≤ self.new.room) }
    {
        let kept = self.bytes.len() - self.at;
        let more = self.bytes.len().max(room);
        let start = self.at.checked_add(more).ok_or(NoMemory)?;
        let size = start.checked_add(kept).ok_or(NoMemory)?;
        let mut longer = vec![in self.alloc; 0; size]?;
        longer[start..].copy_from_slice(&self.bytes[self.at..]);
        self.bytes = longer;
        self.at = start;
        Ok(())
    }

    /// Writes the bytes before the text.
    #[inline(always)]
    pub fn piece(&mut self, piece: &[u8])
        requires { length piece.now ≤ self.old.room }
        ensures text { self.new.text ≡ piece.now ++ self.old.text }
        ensures room { self.new.room + length piece.now ≡ self.old.room }
    {
        let start = self.at - piece.len();
        self.bytes[start..self.at].copy_from_slice(piece);
        self.at = start;
    }

    /// Writes the word before the text, in pieces of 16, 8, 4, 2 bytes and one.
    #[inline(always)]
    pub fn word(&mut self, word: &str)
        requires { length word.now ≤ self.old.room }
        ensures text { self.new.text ≡ word.now ++ self.old.text }
        ensures room { self.new.room + length word.now ≡ self.old.room }
    {
        let word = word.as_bytes();
        if word.len() >= 32 {
            return self.piece(word);
        }
        let word = self.end_of::<16>(word);
        let word = self.end_of::<8>(word);
        let word = self.end_of::<4>(word);
        let word = self.end_of::<2>(word);
        self.piece(word);
    }

    /// Writes the last `N` bytes of the word before the text, if it has as many, and returns the
    /// bytes before them. They are copied to an array first, which can't overlap the buffer: so the
    /// copy from there needs no test for that. Where the word is a constant, nothing of the first
    /// copy is left in the program.
    #[inline(always)]
    fn end_of<'w, const N: usize>(&mut self, word: &'w [u8]) -> &'w [u8]
        requires room { length word.now ≤ self.old.room }
        requires size { N ≤ 32 }
        ensures text { result.now ++ self.new.text ≡ word.now ++ self.old.text }
        ensures room { self.new.room + length word.now ≡ self.old.room + length result.now }
    {
        match word.split_last_chunk::<N>() {
            Some((prefix, last)) => {
                let own = *last;
                self.piece(&own);
                prefix
            }
            None => word,
        }
    }

    /// Writes the number before the text, in decimal. Most numbers of a report have one digit or
    /// two, which need no call.
    #[inline(always)]
    #[tactic(auto, using(std::proofs::lemmas::Fmt::decimal_digit, crate::proofs::Decimal::of_two))]
    pub fn number(&mut self, number: u64)
        requires { NUMBER ≤ self.old.room }
        ensures text { self.new.text ≡ decimal number ++ self.old.text }
        ensures room { self.old.room ≤ self.new.room + NUMBER }
    {
        if number < 10 {
            self.piece(&[b'0' + number as u8])
        } else if number < 100 {
            self.piece(&[b'0' + (number / 10) as u8, b'0' + (number % 10) as u8])
        } else {
            self.digits(number)
        }
    }

    /// Writes the number of a line before the text.
    #[inline(always)]
    pub fn line(&mut self, number: u32)
        requires { NUMBER ≤ self.old.room }
        ensures text { self.new.text ≡ decimal number ++ self.old.text }
        ensures room { self.old.room ≤ self.new.room + NUMBER }
    {
        self.at = self.line.write(number, &mut self.bytes, self.at);
    }

    /// Writes a label before the text.
    #[inline(always)]
    pub fn label(&mut self, number: u32)
        requires { NUMBER ≤ self.old.room }
        ensures text { self.new.text ≡ decimal number ++ self.old.text }
        ensures room { self.old.room ≤ self.new.room + NUMBER }
    {
        self.at = self.label.write(number, &mut self.bytes, self.at);
    }

    /// Writes the number of a credential before the text.
    #[inline(always)]
    pub fn cred(&mut self, number: u64)
        requires { NUMBER ≤ self.old.room }
        ensures text { self.new.text ≡ decimal number ++ self.old.text }
        ensures room { self.old.room ≤ self.new.room + NUMBER }
    {
        match u32::try_from(number) {
            Ok(number) => self.at = self.cred.write(number, &mut self.bytes, self.at),
            Err(_) => self.digits(number),
        }
    }

    /// Writes the number of a slot before the text.
    #[inline(always)]
    pub fn slot(&mut self, number: u32)
        requires { NUMBER ≤ self.old.room }
        ensures text { self.new.text ≡ decimal number ++ self.old.text }
        ensures room { self.old.room ≤ self.new.room + NUMBER }
    {
        self.at = self.slot.write(number, &mut self.bytes, self.at);
    }

    #[inline(never)]
    fn digits(&mut self, number: u64)
        requires { NUMBER ≤ self.old.room }
        ensures text { self.new.text ≡ decimal number ++ self.old.text }
        ensures room { self.old.room ≤ self.new.room + NUMBER }
    {
        self.at = write_digits(number, &mut self.bytes, self.at);
    }
}
