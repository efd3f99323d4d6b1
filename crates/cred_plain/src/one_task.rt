//! A task, and which tasks an event ends.
ghost use Rattle.std.specs.Prelude.{◌≡◌, ◌<◌, ◌≤◌, ◌++◌, ◌∷◌, drop, length, slice_get};
ghost use Rattle.std.specs.Prelude.{All, OnOk, OnErr};
ghost use Rattle.cred_ids.specs.Limits.{DEPTH};
ghost use Rattle.cred_model.specs.State.{acting};
ghost use Rattle.cred_model.specs.Ends.{numbers_of};
ghost use Rattle.cred_model.specs.Moves.{first_task, updated};
ghost use Rattle.cred_plain.specs.Tasks.{ends_by};

use cred_ids::NoMemory;
use std::alloc::Global;
use std::marker::Model;

/// A task has the number of its current credential, and those of the credentials that it acts with
/// in its place, the newest first.
#[derive(Drop)]
pub struct Task {
    pub number: u32,
    pub process: u32,
    pub current: u64,
    pub overrides: Vec<u64>,
}

impl Model for Task {
    ghost use Rattle.std.specs.Prelude.{◌≤◌, length};
    ghost use Rattle.cred_ids.specs.Limits.{DEPTH};
    ghost use Rattle.cred_model.specs.State.{Task};

    ghost Value = { Task };

    ghost view = { λ t. record {
      number = t.number;
      process = t.process;
      current = t.current;
      overrides = t.overrides.items;
    } };

    ghost invariant = { λ t. length t.overrides.items ≤ DEPTH };
}

/// Which tasks an event ends.
#[derive(Clone, Copy)]
pub enum Ending {
    Nobody,
    /// The task of this number.
    Task(u32),
    /// All threads of a process.
    Process(u32),
    /// All threads of a process but one.
    Others { process: u32, task: u32 },
}

impl Ending {
    /// Whether this task ends.
    pub fn takes(self, task: &Task) -> bool
        ensures { result ≡ ends_by self task.now }
    {
        match self {
            Ending::Nobody => false,
            Ending::Task(number) => task.number == number,
            Ending::Process(process) => task.process == process,
            Ending::Others {
                process,
                task: number,
            } => task.process == process && task.number != number,
        }
    }
}

impl Task {
    /// A task that overrides nothing.
    pub fn first(alloc: Global, number: u32, process: u32, current: u64) -> Task
        ensures { result ≡ first_task number process current }
    {
        Task {
            number,
            process,
            current,
            overrides: Vec::new(alloc),
        }
    }

    /// How many overrides it has: 0 to 8.
    pub fn depth(&self) -> u32
        ensures { result ≡ length self.now.overrides }
    {
        self.overrides.len() as u32
    }

    /// The number of the credential of its newest override.
    pub fn newest(&self) -> Option<u64>
        ensures { result ≡ slice_get self.now.overrides 0 }
    {
        self.overrides.first().copied()
    }

    /// The number of the credential that it acts with.
    pub fn acting(&self) -> u64
        ensures { result ≡ acting self.now }
    {
        self.newest().unwrap_or(self.current)
    }

    /// The least number that it refers to.
    pub(crate) fn least(&self) -> u64
        ensures { All (λ n. result ≤ n) (numbers_of self.now) }
    {
        let mut least = self.current;
        for number in &self.overrides {
            least = least.min(*number);
        }
        least
    }

    /// Appends the numbers that it refers to.
    ///
    /// # Errors
    ///
    /// `NoMemory` if the list cannot grow.
    pub(crate) fn refer(&self, numbers: &mut Vec<u64>) -> Result<(), NoMemory>
        ensures { OnOk result (numbers.new.items ≡ numbers.old.items ++ numbers_of self.now) }
    {
        numbers.push(self.current)?;
        numbers.extend_from_slice(&self.overrides)?;
        Ok(())
    }

    /// Gives it another current credential, if it is the task of this number.
    pub(crate) fn update(&mut self, task: u32, number: u64)
        ensures { self.new ≡ updated task number self.old }
    {
        if self.number == task {
            self.current = number;
        }
    }

    /// Lets it act with another credential from now on.
    ///
    /// # Errors
    ///
    /// `NoMemory` if an allocation fails: nothing changes.
    pub(crate) fn push(&mut self, number: u64) -> Result<(), NoMemory>
        requires { length self.old.overrides < DEPTH }
        ensures ok { OnOk result
            (self.new ≡ record self.old { overrides = number ∷ self.old.overrides }) }
        ensures err { OnErr result (self.new ≡ self.old) }
    {
        self.overrides.insert(0, number)?;
        Ok(())
    }

    /// Lets it act again with the credential that it had before its newest override.
    pub(crate) fn pop(&mut self)
        ensures { self.new ≡ record self.old { overrides = drop 1 self.old.overrides } }
    {
        if !self.overrides.is_empty() {
            self.overrides.remove(0);
        }
    }
}
