//! One broadcast.
ghost use Rattle.std.specs.Prelude.{◌≡◌, ◌<◌, ◌+◌, length, reverse, slice_get, [], ◌∷◌, ◌++◌};
ghost use Rattle.std.specs.Prelude.{IfOk, IfSome, OnOk, OnErr};
ghost use Rattle.std.specs.List.{AllPairs};
ghost use Rattle.cred_ids.specs.Ordered.{in_order};
ghost use Rattle.cred_model.specs.Broadcasts.{is_open, waits_in, without_waiter};
ghost use Rattle.cred_broadcasts.specs.Broadcasts.{MakesOf};

use cred_ids::NoMemory;
use cred_packed::Head;
use cred_record::IdCall;
use std::alloc::Global;
use std::marker::Model;

/// What a broadcast's call made of the credential of the thread that made its step last, where
/// neither has groups: the words of both. The next thread mostly has the same credential, and then
/// the call makes the same of it.
#[derive(Clone, Copy, Debug, Drop)]
pub struct LastStep {
    pub before: Head,
    pub after: Head,
    /// An effective or a filesystem id is another one in `after`.
    pub ids_changed: bool,
}

/// A call that every thread of a process makes, one after another: the line that began it, the
/// process, the thread that made it first, and those that still have to make it. Contracts see
/// these in rising order. They stand in falling order, so that the least, which is the next to make
/// the call, is taken from the end. The step that was made last may be kept beside them, which
/// contracts don't see: it ends with its broadcast.
#[derive(Drop, Debug)]
pub struct Broadcast {
    pub number: u32,
    pub process: u32,
    pub caller: u32,
    pub call: IdCall,
    pub waiting: Vec<u32>,
    pub last: Option<LastStep>,
}

impl Model for Broadcast {
    ghost use Rattle.std.specs.Prelude.{reverse, IfSome};
    ghost use Rattle.cred_model.specs.State.{Broadcast};
    ghost use Rattle.cred_broadcasts.specs.Broadcasts.{MakesOf};

    ghost Value = { Broadcast };

    ghost view = { λ c. record {
      number = c.number;
      process = c.process;
      caller = c.caller;
      call = c.call;
      waiting = reverse c.waiting.items;
    } };

    ghost invariant = { λ c. IfSome c.last (λ step.
        MakesOf c.call step.before step.after step.ids_changed) };
}

impl Broadcast {
    /// Whether a task waits.
    pub fn waits(&self, task: u32) -> bool
        ensures { result ≡ waits_in task self.now }
    {
        self.waiting.contains(&task)
    }

    /// Whether somebody waits.
    pub fn is_open(&self) -> bool
        ensures { result ≡ is_open self.now }
    {
        !self.waiting.is_empty()
    }

    /// The least task that waits.
    pub fn least(&self) -> Option<u32>
        ensures { result ≡ slice_get self.now.waiting 0 }
    {
        self.waiting.last().copied()
    }

    /// How many wait beside one of them.
    pub fn others(&self) -> u32
        requires some { 0 < length self.now.waiting }
        requires rising { AllPairs (λ m n. m < n) self.now.waiting }
        ensures { result + 1 ≡ length self.now.waiting }
    {
        // No two of them are one, so that the greatest bounds how many they are.
        let greatest = *self.waiting.first().unwrap();
        prove!(self.waiting.len() - 1 <= greatest as usize);
        (self.waiting.len() - 1) as u32
    }

    /// A task waits too. If an allocation fails, nothing changes.
    pub fn join(&mut self, task: u32) -> Result<(), NoMemory>
        ensures ok { OnOk result (self.new
            ≡ record self.old { waiting = in_order (self.old.waiting ++ task ∷ []) }) }
        ensures err { OnErr result (self.new ≡ self.old) }
    {
        self.waiting.push(task)?;
        self.waiting.sort_unstable();
        self.waiting.reverse();
        Ok(())
    }

    /// A task has made the call, and waits no more. Mostly it is the least.
    #[inline(always)]
    pub fn step(&mut self, task: u32)
        requires { AllPairs (λ m n. m < n) self.old.waiting }
        ensures { self.new ≡ without_waiter task self.old }
    {
        if self.least() == Some(task) {
            self.waiting.pop();
        } else {
            self.leave(task);
        }
    }

    /// The step that was made last, if it is kept.
    #[inline(always)]
    pub fn last(&self) -> Option<&LastStep>
        ensures { IfSome result (λ step.
            MakesOf self.now.call step.now.before step.now.after step.now.ids_changed) }
    {
        self.last.as_ref()
    }

    /// Keeps a step, in place of one that was kept before.
    pub fn keep(&mut self, step: LastStep)
        requires { MakesOf self.old.call step.before step.after step.ids_changed }
        ensures { self.new ≡ self.old }
    {
        self.last = Some(step);
    }

    /// A task waits no more.
    #[inline(never)]
    pub fn leave(&mut self, task: u32)
        ensures { self.new ≡ without_waiter task self.old }
    {
        self.waiting.retain(|other| *other != task);
    }
}

/// These tasks in falling order.
pub fn falling(alloc: Global, tasks: &[u32]) -> Result<Vec<u32>, NoMemory>
    ensures { IfOk result (λ falling. reverse falling.items ≡ in_order tasks.now) }
{
    let mut falling = Vec::from_slice(alloc, tasks)?;
    falling.sort_unstable();
    falling.reverse();
    Ok(falling)
}
