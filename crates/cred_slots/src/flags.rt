//! One flag for each slot.
ghost use Rattle.std.specs.Prelude.{◌≡◌, ◌≢◌, ℕ, ◌<◌, map, false, slice_set, if◌then◌else◌};
ghost use Rattle.std.specs.Prelude.{MatchOption};
ghost use Rattle.std.specs.Int.{bit_at};
ghost use Rattle.cred_ids.specs.Limits.{SLOTS, slots};
ghost use Rattle.cred_slots.specs.Flags.{in_either, first_unset};

use cred_ids::limits;
use std::marker::Model;

/// How many flags stand in one word.
const BITS: u32 = 64;

/// How many words there are.
const WORDS: usize = limits::SLOTS / 64;

/// One flag for each slot, as the bits of words. Contracts see the list of the flags.
#[derive(Drop, Debug)]
pub struct Flags {
    words: [u64; WORDS],
}

impl Model for Flags {
    ghost use Rattle.std.specs.Prelude.{List, Bool};
    ghost use Rattle.cred_slots.specs.Flags.{flags_of};

    ghost Value = { List Bool };

    ghost view = { λ f. flags_of f.words };
}

impl Flags {
    /// No flag is set.
    pub fn new() -> Flags
        ensures { result ≡ map (λ _. false) slots }
    {
        Flags { words: [0; WORDS] }
    }

    /// Sets or clears the flag of a slot.
    pub fn put(&mut self, slot: u32, flag: bool)
        requires { slot < SLOTS }
        ensures { self.new ≡ slice_set self.old slot flag }
    {
        let word = &mut self.words[(slot / BITS) as usize];
        *word = put_bit(*word, slot % BITS, flag);
    }

    /// The flags that are set in one or the other.
    pub fn union(&self, other: &Flags) -> Flags
        ensures { result ≡ map (in_either self.now other.now) slots }
    {
        Flags {
            // Word by word: it can't be a number of words that isn't written here.
            words: [
                self.words[0] | other.words[0],
                self.words[1] | other.words[1],
                self.words[2] | other.words[2],
                self.words[3] | other.words[3],
            ],
        }
    }

    /// The least slot whose flag isn't set.
    pub fn first_unset(&self) -> Option<u32>
        ensures { result ≡ first_unset self.now }
    {
        for index in 0..WORDS as u32 {
            if let Some(bit) = first_clear(self.words[index as usize]) {
                return Some(index * BITS + bit);
            }
        }
        None
    }
}

/// The word with one bit set or cleared.
fn put_bit(word: u64, bit: u32, flag: bool) -> u64
    requires { bit < 64 }
    ensures same { bit_at result bit ≡ (if flag then 1 else 0) }
    ensures others { (i : ℕ) → i < 64 → i ≢ bit → bit_at result i ≡ bit_at word i }
{
    if flag {
        with_bit(word, bit)
    } else {
        without_bit(word, bit)
    }
}

fn with_bit(word: u64, bit: u32) -> u64
    requires { bit < 64 }
    ensures same { bit_at result bit ≡ 1 }
    ensures others { (i : ℕ) → i < 64 → i ≢ bit → bit_at result i ≡ bit_at word i }
{
    word | (1 << bit)
}

fn without_bit(word: u64, bit: u32) -> u64
    requires { bit < 64 }
    ensures same { bit_at result bit ≡ 0 }
    ensures others { (i : ℕ) → i < 64 → i ≢ bit → bit_at result i ≡ bit_at word i }
{
    word & !(1 << bit)
}

/// The lowest bit of the word that is clear.
fn first_clear(word: u64) -> Option<u32>
    ensures { MatchOption result
        ((i : ℕ) → i < 64 → bit_at word i ≡ 1)
        (λ bit. (bit < 64) × (bit_at word bit ≡ 0) × ((i : ℕ) → i < bit → bit_at word i ≡ 1)) }
{
    if word == u64::MAX {
        None
    } else {
        Some(word.trailing_ones())
    }
}
