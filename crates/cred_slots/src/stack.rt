//! A stack of at most eight numbers.
ghost use Rattle.std.specs.Prelude.{◌≡◌, ◌≤◌, [], ◌∷◌, drop, length, reverse, nat_lt, slice_get};
ghost use Rattle.std.specs.Prelude.{if◌then◌else◌};
ghost use Rattle.cred_ids.specs.Limits.{DEPTH};

use cred_ids::limits;
use std::marker::Model;

/// At most `DEPTH` numbers, of which the newest is on top. It takes no memory. Contracts see the
/// list of the numbers, the newest first.
#[derive(Drop, Debug)]
pub struct Stack {
    /// The numbers, the oldest first, and after them what is left of those that were taken off.
    numbers: [u64; limits::DEPTH],
    depth: usize,
}

impl Model for Stack {
    ghost use Rattle.std.specs.Prelude.{ℕ, ◌≤◌, List, reverse, take};
    ghost use Rattle.cred_ids.specs.Limits.{DEPTH};

    ghost Value = { List ℕ };

    ghost view = { λ s. reverse (take s.depth s.numbers) };

    ghost invariant = { λ s. s.depth ≤ DEPTH };
}

impl Stack {
    /// No number.
    pub fn new() -> Stack
        ensures { result ≡ [] }
    {
        Stack {
            numbers: [0; limits::DEPTH],
            depth: 0,
        }
    }

    /// Puts a number on top. `false` where the stack has `DEPTH` numbers, and then nothing changes.
    pub fn push(&mut self, number: u64) -> bool
        ensures pushed { result ≡ nat_lt (length self.old) DEPTH }
        ensures stack { self.new ≡ (if result then number ∷ self.old else self.old) }
    {
        if self.depth == limits::DEPTH {
            return false;
        }
        self.numbers[self.depth] = number;
        self.depth += 1;
        true
    }

    /// Takes off the number on top. `None` where there is none.
    pub fn pop(&mut self) -> Option<u64>
        ensures number { result ≡ slice_get self.old 0 }
        ensures stack { self.new ≡ drop 1 self.old }
    {
        let number = self.top()?;
        self.depth -= 1;
        Some(number)
    }

    /// The number on top. `None` where there is none.
    pub fn top(&self) -> Option<u64>
        ensures { result ≡ slice_get self.now 0 }
    {
        self.oldest_first().last().copied()
    }

    /// How many numbers there are: 0 to `DEPTH`.
    pub fn depth(&self) -> u32
        ensures value { result ≡ length self.now }
        ensures limit { result ≤ DEPTH }
    {
        self.depth as u32
    }

    /// The numbers, the oldest first.
    pub fn oldest_first(&self) -> &[u64]
        ensures { result.now ≡ reverse self.now }
    {
        &self.numbers[..self.depth]
    }
}
