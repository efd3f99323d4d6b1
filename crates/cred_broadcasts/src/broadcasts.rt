//! The table of open broadcasts.
ghost use Rattle.std.specs.Prelude.{◌≡◌, ◌≢◌, ◌==◌, ◌+◌, ◌<◌, [], All, length};
ghost use Rattle.std.specs.Prelude.{slice_get, vec_len, true, None, IfSome, OnOk, OnErr};
ghost use Rattle.std.specs.List.{AllPairs, position, remove};
ghost use Rattle.std.specs.Option.{IsSomeAnd, option_map};
ghost use Rattle.cred_ids.specs.Ordered.{in_order};
ghost use Rattle.cred_model.specs.Broadcasts.{waits_in, with_broadcast, waits_no_more, joined};
ghost use Rattle.cred_model.specs.Broadcasts.{dropped, WaitsNowhere};
ghost use Rattle.cred_broadcasts.specs.Broadcasts.{broadcast_under, broadcast_within, broadcast_by};
ghost use Rattle.cred_broadcasts.specs.Broadcasts.{AreBroadcasts, MakesOf};

use crate::one_broadcast::{Broadcast, LastStep, falling};
use cred_ids::NoMemory;
use cred_record::IdCall;
use std::alloc::Global;
use std::marker::Model;

/// The open broadcasts, in the order in which they were begun. No two are open in one process, so
/// that there are at most half as many as there may be tasks (32), and each call goes through
/// them. After `NoMemory` the table is as it was.
#[derive(Drop, Debug)]
pub struct Broadcasts {
    broadcasts: Vec<Broadcast>,
    alloc: Global,
}

impl Model for Broadcasts {
    ghost use Rattle.std.specs.Prelude.{List};
    ghost use Rattle.cred_model.specs.State.{Broadcast};
    ghost use Rattle.cred_broadcasts.specs.Broadcasts.{AreBroadcasts};

    ghost Value = { List Broadcast };

    ghost view = { λ c. c.broadcasts.items };

    ghost invariant = { λ c. AreBroadcasts c.broadcasts.items };
}

impl Broadcasts {
    /// No broadcast. No memory is taken.
    pub fn new(alloc: Global) -> Broadcasts
        ensures { result ≡ [] }
    {
        Broadcasts {
            broadcasts: Vec::new(alloc),
            alloc,
        }
    }

    /// A broadcast is begun: its caller has made the call, and these other threads of the process
    /// wait for their step. Where there is none, it is completed and isn't open, and the call is
    /// not copied.
    ///
    /// # Errors
    ///
    /// `NoMemory` if an allocation fails: nothing changes.
    pub fn begin(
        &mut self,
        number: u32,
        process: u32,
        caller: u32,
        call: &IdCall,
        waiting: &[u32],
    ) -> Result<(), NoMemory>
        requires new { broadcast_under self.old number ≡ None }
        requires one { broadcast_within self.old process ≡ None }
        requires once { AllPairs (λ a b. a ≢ b) waiting.now }
        requires only_here { All (WaitsNowhere self.old) waiting.now }
        ensures ok { OnOk result (self.new ≡ with_broadcast self.old (record {
          number = number;
          process = process;
          caller = caller;
          call = call.now;
          waiting = in_order waiting.now;
        })) }
        ensures err { OnErr result (self.new ≡ self.old) }
    {
        if waiting.is_empty() {
            return Ok(());
        }
        let waiting = falling(self.alloc, waiting)?;
        let call = call.copy()?;
        self.broadcasts.push(Broadcast {
            number,
            process,
            caller,
            call,
            waiting,
            last: None,
        })?;
        Ok(())
    }

    /// Where the broadcast of a number stands among the open ones. `None` just where none of that
    /// number is open.
    pub fn place(&self, number: u32) -> Option<usize>
        ensures { result ≡ position (λ b. b.number == number) self.now }
    {
        self.broadcasts
            .iter()
            .position(|broadcast| broadcast.number == number)
    }

    /// The least task that waits in the broadcast at a place: it makes its step next.
    pub fn least_at(&self, place: usize) -> u32
        requires { place < length self.now }
        ensures { IfSome (slice_get self.now place) (λ b. slice_get b.waiting 0 ≡ Some result) }
    {
        // It is there: somebody waits in each.
        self.broadcasts[place].least().unwrap()
    }

    /// The call that is made in the broadcast at a place.
    pub fn call_at(&self, place: usize) -> &IdCall
        requires { place < length self.now }
        ensures { IfSome (slice_get self.now place) (λ b. result.now ≡ b.call) }
    {
        &self.broadcasts[place].call
    }

    /// The step that was made last in the broadcast at a place, if it is kept: what the call made
    /// of one credential, as it does of each.
    #[inline(always)]
    pub fn last_at(&self, place: usize) -> Option<&LastStep>
        requires { place < length self.now }
        ensures { IfSome (slice_get self.now place) (λ b. IfSome result (λ step.
            MakesOf b.call step.now.before step.now.after step.now.ids_changed)) }
    {
        self.broadcasts[place].last()
    }

    /// Keeps what the call of the broadcast at a place has made of a credential.
    pub fn keep_at(&mut self, place: usize, step: LastStep)
        requires { IsSomeAnd (slice_get self.old place) (λ b.
            MakesOf b.call step.before step.after step.ids_changed) }
        ensures { self.new ≡ self.old }
    {
        self.broadcasts[place].keep(step);
    }

    /// A task has made its step in the broadcast at a place: it waits no more. Returns how many
    /// still wait there; at 0 it is completed and closed.
    #[inline(always)]
    pub fn act_at(&mut self, place: usize, task: u32) -> u32
        requires { IsSomeAnd (slice_get self.old place) (λ b. waits_in task b ≡ true) }
        ensures left { IfSome (slice_get self.old place) (λ b. result + 1 ≡ length b.waiting) }
        ensures broadcasts { self.new ≡ waits_no_more task self.old }
    {
        let broadcast = &mut self.broadcasts[place];
        let left = broadcast.others();
        broadcast.step(task);
        if left == 0 {
            close(&mut self.broadcasts, place);
        }
        left
    }

    /// A task has created a thread, which waits where its creator waits.
    ///
    /// # Errors
    ///
    /// `NoMemory` if an allocation fails: nothing changes.
    pub fn join(&mut self, parent: u32, child: u32) -> Result<(), NoMemory>
        requires { WaitsNowhere self.old child }
        ensures ok { OnOk result (self.new ≡ joined parent child self.old) }
        ensures err { OnErr result (self.new ≡ self.old) }
    {
        let Some(place) = self
            .broadcasts
            .iter()
            .position(|broadcast| broadcast.waits(parent))
        else {
            return Ok(());
        };
        self.broadcasts[place].join(child)
    }

    /// A task has ended: it waits no more. A broadcast that nobody waits in any more is completed
    /// and closed.
    pub fn remove_task(&mut self, task: u32)
        ensures { self.new ≡ waits_no_more task self.old }
    {
        leave(&mut self.broadcasts, task);
    }

    /// The broadcast of a process is dropped, as when one of its threads calls execve(2). Where
    /// none is open, nothing changes.
    pub fn drop_in(&mut self, process: u32)
        ensures { self.new ≡ dropped process self.old }
    {
        self.broadcasts
            .retain(|broadcast| broadcast.process != process);
    }

    /// The number of the broadcast that is open in a process. `None` where none is.
    pub fn open_in(&self, process: u32) -> Option<u32>
        ensures number { result ≡ option_map (λ b. b.number) (broadcast_within self.now process) }
        ensures broadcasts { AreBroadcasts self.now }
    {
        let found = self
            .broadcasts
            .iter()
            .find(|broadcast| broadcast.process == process);
        Some(found?.number)
    }

    /// The number of the open broadcast that a task has begun. `None` where it has begun none.
    pub fn begun_by(&self, task: u32) -> Option<u32>
        ensures { result ≡ option_map (λ b. b.number) (broadcast_by self.now task) }
    {
        let found = self
            .broadcasts
            .iter()
            .find(|broadcast| broadcast.caller == task);
        Some(found?.number)
    }

    /// The task that made the call of a broadcast first. `None` where none of that number is open.
    pub fn caller_of(&self, number: u32) -> Option<u32>
        ensures { result ≡ option_map (λ b. b.caller) (broadcast_under self.now number) }
    {
        Some(self.broadcast(number)?.caller)
    }

    /// The broadcast of a number. `None` where none of that number is open.
    fn broadcast(&self, number: u32) -> Option<&Broadcast>
        ensures found { option_map (λ c. c.now) result ≡ broadcast_under self.now number }
        ensures broadcasts { AreBroadcasts self.now }
    {
        self.broadcasts
            .iter()
            .find(|broadcast| broadcast.number == number)
    }
}

/// Closes the broadcast at a place.
// Not inlined, since most steps close none.
#[inline(never)]
fn close(broadcasts: &mut Vec<Broadcast>, place: usize)
    requires { place < vec_len broadcasts.old }
    ensures { broadcasts.new.items ≡ remove broadcasts.old.items place }
{
    broadcasts.remove(place);
}

/// A task waits no more, and the broadcasts that nobody waits in any more are closed.
fn leave(broadcasts: &mut Vec<Broadcast>, task: u32)
    ensures { broadcasts.new.items ≡ waits_no_more task broadcasts.old.items }
{
    for broadcast in broadcasts.iter_mut() {
        broadcast.leave(task);
    }
    broadcasts.retain(|broadcast| broadcast.is_open());
}
