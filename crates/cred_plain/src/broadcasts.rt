//! The open broadcasts (nptl(7)).
ghost use Rattle.std.specs.Prelude.{◌≡◌, ◌<◌, ◌≤◌, ◌==◌, ◌+◌, ◌++◌, ◌∷◌, [], drop, find, length};
ghost use Rattle.std.specs.Prelude.{position, slice_get, Some, Ok, Err, MatchOption, OnOk, OnErr};
ghost use Rattle.std.specs.List.{AllPairs};
ghost use Rattle.std.specs.Option.{IsSomeAnd, option_map};
ghost use Rattle.cred_event.specs.declared.answer.Answer.TheVariants.{Busy};
ghost use Rattle.cred_ids.specs.Limits.{TASKS};
ghost use Rattle.cred_ids.specs.Ordered.{in_order};
ghost use Rattle.cred_model.specs.Broadcasts.{is_open, not_busy, waits_in, waits_no_more};
ghost use Rattle.cred_model.specs.Broadcasts.{with_broadcast};
ghost use Rattle.cred_model.specs.Broadcasts.{dropped, joined, without_waiter, SharesNone};
ghost use Rattle.cred_plain.specs.Broadcasts.{AreWaitedFor};

use cred_ids::NoMemory;
use cred_record::IdCall;
use std::marker::Model;

/// A call that every thread of a process makes, one after another: the line that began it, the
/// process, the thread that made it first, and those that still have to make it. Contracts see
/// those in rising order.
#[derive(Drop)]
pub struct Broadcast {
    pub number: u32,
    pub process: u32,
    pub caller: u32,
    pub call: IdCall,
    /// Those that wait, in falling order: the least, whose turn is next, is the last.
    falling: Vec<u32>,
}

impl Model for Broadcast {
    ghost use Rattle.std.specs.Prelude.{reverse};
    ghost use Rattle.cred_model.specs.State.{Broadcast};

    ghost Value = { Broadcast };

    ghost view = { λ c. record {
      number = c.number;
      process = c.process;
      caller = c.caller;
      call = c.call;
      waiting = reverse c.falling.items;
    } };
}

impl Broadcast {
    /// A call that these threads still have to make.
    #[inline(always)]
    pub fn new(number: u32, process: u32, caller: u32, call: IdCall, waiting: Vec<u32>) -> Broadcast
        ensures { result ≡ record {
          number = number;
          process = process;
          caller = caller;
          call = call;
          waiting = waiting.items;
        } }
    {
        let mut falling = waiting;
        falling.reverse();
        Broadcast {
            number,
            process,
            caller,
            call,
            falling,
        }
    }

    /// Whether a task waits.
    pub fn waits(&self, task: u32) -> bool
        ensures { result ≡ waits_in task self.now }
    {
        self.falling.contains(&task)
    }

    /// Whether somebody waits.
    fn is_open(&self) -> bool
        ensures { result ≡ is_open self.now }
    {
        !self.falling.is_empty()
    }

    /// The least of those that wait.
    pub fn least(&self) -> Option<u32>
        ensures { result ≡ slice_get self.now.waiting 0 }
    {
        self.falling.last().copied()
    }

    /// How many wait.
    pub fn waiters(&self) -> u32
        requires { length self.now.waiting ≤ TASKS }
        ensures { result ≡ length self.now.waiting }
    {
        self.falling.len() as u32
    }

    /// How many wait beside the least one, where somebody waits.
    pub fn others(&self) -> u32
        requires some { 0 < length self.now.waiting }
        requires rising { AllPairs (λ m n. m < n) self.now.waiting }
        ensures { result + 1 ≡ length self.now.waiting }
    {
        // They are all different, so the greatest bounds how many there are.
        let greatest = *self.falling.first().unwrap();
        prove!(self.falling.len() - 1 <= greatest as usize);
        (self.falling.len() - 1) as u32
    }

    /// Adds a task that waits. If an allocation fails, nothing changes.
    fn join(&mut self, task: u32) -> Result<(), NoMemory>
        ensures ok { OnOk result (self.new
            ≡ record self.old { waiting = in_order (self.old.waiting ++ task ∷ []) }) }
        ensures err { OnErr result (self.new ≡ self.old) }
    {
        self.falling.push(task)?;
        self.falling.sort_unstable();
        self.falling.reverse();
        Ok(())
    }

    /// Removes the least of those that wait, which has made the call.
    fn step(&mut self)
        requires { 0 < length self.old.waiting }
        ensures { self.new ≡ record self.old { waiting = drop 1 self.old.waiting } }
    {
        self.falling.pop();
    }

    /// Removes a task from those that wait.
    fn leave(&mut self, task: u32)
        ensures { self.new ≡ without_waiter task self.old }
    {
        self.falling.retain(|other| *other != task);
    }
}

/// The broadcast of a number.
pub fn broadcast_of(broadcasts: &[Broadcast], number: u32) -> Option<&Broadcast>
    ensures { option_map (λ b. b.now) result ≡ find (λ b. b.number == number) broadcasts.now }
{
    broadcasts
        .iter()
        .find(|broadcast| broadcast.number == number)
}

/// Where the broadcast of a number stands.
pub fn broadcast_place(broadcasts: &[Broadcast], number: u32) -> Option<usize>
    ensures { result ≡ position (λ b. b.number == number) broadcasts.now }
{
    broadcasts
        .iter()
        .position(|broadcast| broadcast.number == number)
}

/// The number of the broadcast that is open in a process.
pub fn open_in(broadcasts: &[Broadcast], process: u32) -> Option<u32>
    ensures { MatchOption result
        (not_busy (find (λ b. b.process == process) broadcasts.now) ≡ Ok tt)
        (λ number. not_busy (find (λ b. b.process == process) broadcasts.now) ≡ Err (Busy number)) }
{
    number_in(broadcasts, process)
}

fn number_in(broadcasts: &[Broadcast], process: u32) -> Option<u32>
    ensures { result
        ≡ option_map (λ b. b.number) (find (λ b. b.process == process) broadcasts.now) }
{
    let found = broadcasts
        .iter()
        .find(|broadcast| broadcast.process == process);
    Some(found?.number)
}

/// The number of the open broadcast that a task has begun.
pub fn begun_by(broadcasts: &[Broadcast], task: u32) -> Option<u32>
    ensures { MatchOption result
        (not_busy (find (λ b. b.caller == task) broadcasts.now) ≡ Ok tt)
        (λ number. not_busy (find (λ b. b.caller == task) broadcasts.now) ≡ Err (Busy number)) }
{
    number_by(broadcasts, task)
}

fn number_by(broadcasts: &[Broadcast], task: u32) -> Option<u32>
    ensures { result ≡ option_map (λ b. b.number) (find (λ b. b.caller == task) broadcasts.now) }
{
    let found = broadcasts.iter().find(|broadcast| broadcast.caller == task);
    Some(found?.number)
}

/// Adds the broadcast, if anybody waits in it.
///
/// # Errors
///
/// `NoMemory` if an allocation fails: the broadcasts are as they were.
pub fn open_broadcast(broadcasts: &mut Vec<Broadcast>, broadcast: Broadcast) -> Result<(), NoMemory>
    ensures ok { OnOk result (broadcasts.new.items
        ≡ with_broadcast broadcasts.old.items broadcast) }
    ensures err { OnErr result (broadcasts.new.items ≡ broadcasts.old.items) }
{
    if broadcast.is_open() {
        broadcasts.push(broadcast)?;
    }
    Ok(())
}

/// Adds a new thread to the broadcast that its creator waits in, if there is one. No task waits in
/// two broadcasts.
///
/// # Errors
///
/// `NoMemory` if an allocation fails: the broadcasts are as they were.
pub fn join(broadcasts: &mut Vec<Broadcast>, parent: u32, child: u32) -> Result<(), NoMemory>
    requires { AllPairs SharesNone broadcasts.old.items }
    ensures ok { OnOk result (broadcasts.new.items ≡ joined parent child broadcasts.old.items) }
    ensures err { OnErr result (broadcasts.new.items ≡ broadcasts.old.items) }
{
    let Some(place) = broadcasts
        .iter()
        .position(|broadcast| broadcast.waits(parent))
    else {
        return Ok(());
    };
    broadcasts[place].join(child)
}

/// Removes the least task that waits in the broadcast at a place, which has made its step there,
/// and the broadcast if nobody waits in it any more.
pub fn act(broadcasts: &mut Vec<Broadcast>, place: usize, task: u32)
    requires broadcasts { AreWaitedFor broadcasts.old.items }
    requires least { IsSomeAnd (slice_get broadcasts.old.items place)
        (λ b. slice_get b.waiting 0 ≡ Some task) }
    ensures { broadcasts.new.items ≡ waits_no_more task broadcasts.old.items }
{
    let broadcast = &mut broadcasts[place];
    broadcast.step();
    if !broadcast.is_open() {
        broadcasts.remove(place);
    }
}

/// Removes a task from those that wait, and the broadcasts that nobody waits in any more.
pub fn leave(broadcasts: &mut Vec<Broadcast>, task: u32)
    ensures { broadcasts.new.items ≡ waits_no_more task broadcasts.old.items }
{
    for broadcast in broadcasts.iter_mut() {
        broadcast.leave(task);
    }
    broadcasts.retain(|broadcast| broadcast.is_open());
}

/// Drops the broadcast of a process.
pub fn drop_broadcast(broadcasts: &mut Vec<Broadcast>, process: u32)
    ensures { broadcasts.new.items ≡ dropped process broadcasts.old.items }
{
    broadcasts.retain(|broadcast| broadcast.process != process);
}
