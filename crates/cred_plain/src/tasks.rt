//! The tasks.
ghost use Rattle.std.specs.Prelude.{◌≡◌, ◌≢◌, ◌-◌, ◌<◌, ◌≤◌, ◌==◌, ◌++◌, ◌∷◌, [], drop, filter};
ghost use Rattle.std.specs.Prelude.{find, is_some, length, map, not, position, slice_get, take};
ghost use Rattle.std.specs.Prelude.{count_by, nat_lt, IfOk, IfSome, OnOk, OnErr, Some};
ghost use Rattle.std.specs.List.{AllPairs};
ghost use Rattle.std.specs.Option.{option_map};
ghost use Rattle.cred_ids.specs.Limits.{DEPTH, TASKS};
ghost use Rattle.cred_model.specs.Ends.{is_thread_of, left_by, survivors};
ghost use Rattle.cred_model.specs.Moves.{with_current, with_overrides};
ghost use Rattle.cred_plain.specs.Tasks.{ends_by, is_other_thread, others_in, IsTaskAt, OfOneTask};

use crate::one_task::{Ending, Task};
use cred_ids::{NoMemory, limits};
use std::alloc::Global;
use std::marker::Model;

/// The live tasks, at most 64, in the order in which they were created.
#[derive(Drop)]
pub struct Tasks {
    list: Vec<Task>,
    /// The place of the task that got a credential last. Another task may have it by now, or none:
    /// the task after it is taken only where its number is the one that is looked for.
    recent: usize,
    alloc: Global,
}

impl Model for Tasks {
    ghost use Rattle.std.specs.Prelude.{◌≤◌, List, length};
    ghost use Rattle.cred_ids.specs.Limits.{TASKS};
    ghost use Rattle.cred_model.specs.State.{Task};

    ghost Value = { List Task };

    ghost view = { λ t. t.list.items };

    ghost invariant = { λ t. length t.list.items ≤ TASKS };
}

impl Tasks {
    /// A list of no tasks.
    pub fn new(alloc: Global) -> Tasks
        ensures { result ≡ [] }
    {
        Tasks {
            list: Vec::new(alloc),
            recent: 0,
            alloc,
        }
    }

    /// All tasks.
    pub fn items(&self) -> &[Task]
        ensures { result.now ≡ self.now }
    {
        self.list.as_slice()
    }

    /// Whether as many tasks are alive as may be.
    pub fn full(&self) -> bool
        ensures { result ≡ not (nat_lt (length self.now) TASKS) }
    {
        self.list.len() >= limits::TASKS
    }

    /// The task of a number.
    pub fn get(&self, number: u32) -> Option<&Task>
        ensures { option_map (λ t. t.now) result ≡ find (λ t. t.number == number) self.now }
    {
        self.list.iter().find(|task| task.number == number)
    }

    /// Where a task of a number stands. `None` where none is alive.
    pub fn place(&self, number: u32) -> Option<usize>
        ensures place { IfSome result (IsTaskAt self.now number) }
        ensures alive { is_some result ≡ is_some (find (λ t. t.number == number) self.now) }
    {
        // A broadcast goes from one thread to the next, and they mostly stand in that order.
        let next = self.recent.wrapping_add(1);
        match self.list.get(next) {
            Some(task) if task.number == number => Some(next),
            _ => self.first_place(number),
        }
    }

    /// Where the first task of a number stands.
    fn first_place(&self, number: u32) -> Option<usize>
        ensures { result ≡ position (λ t. t.number == number) self.now }
    {
        self.list.iter().position(|task| task.number == number)
    }

    /// The task at a place.
    pub fn at(&self, place: usize) -> &Task
        requires { place < length self.now }
        ensures { Some result.now ≡ slice_get self.now place }
    {
        &self.list[place]
    }

    /// Gives the task at a place another current credential, where no two tasks have one number.
    pub fn set_current_at(&mut self, place: usize, number: u64)
        requires { place < length self.old }
        ensures { AllPairs (λ a b. a.number ≢ b.number) self.old
            → IfSome (slice_get self.old place) (λ t.
            self.new ≡ with_current self.old t.number number) }
    {
        self.list[place].current = number;
        self.recent = place;
    }

    /// Whether a task is alive.
    pub fn alive(&self, number: u32) -> bool
        ensures { result ≡ is_some (find (λ t. t.number == number) self.now) }
    {
        self.get(number).is_some()
    }

    /// Whether a process has a thread.
    pub fn has_process(&self, process: u32) -> bool
        ensures { result ≡ is_some (find (is_thread_of process) self.now) }
    {
        self.thread_of(process).is_some()
    }

    /// The oldest thread of a process.
    fn thread_of(&self, process: u32) -> Option<&Task>
        ensures { option_map (λ t. t.now) result ≡ find (λ t. t.process == process) self.now }
    {
        self.list.iter().find(|task| task.process == process)
    }

    /// Whether a process has another thread than this one.
    pub fn has_other(&self, process: u32, task: u32) -> bool
        ensures { result ≡ is_some (find (is_other_thread process task) self.now) }
    {
        self.other_of(process, task).is_some()
    }

    /// The oldest thread of a process but for one.
    fn other_of(&self, process: u32, task: u32) -> Option<&Task>
        ensures { option_map (λ t. t.now) result ≡ find (is_other_thread process task) self.now }
    {
        self.list
            .iter()
            .find(|other| other.process == process && other.number != task)
    }

    /// Adds a task, where fewer than 64 are alive.
    ///
    /// # Errors
    ///
    /// `NoMemory` if an allocation fails: the tasks are as they were.
    pub fn push(&mut self, task: Task) -> Result<(), NoMemory>
        requires { length self.old < TASKS }
        ensures ok { OnOk result (self.new ≡ self.old ++ task ∷ []) }
        ensures err { OnErr result (self.new ≡ self.old) }
    {
        self.list.push(task)?;
        Ok(())
    }

    /// Removes the newest task.
    pub fn pop(&mut self)
        ensures { self.new ≡ take (length self.old - 1) self.old }
    {
        self.list.pop();
    }

    /// Gives a task another current credential.
    pub fn set_current(&mut self, task: u32, number: u64)
        ensures { self.new ≡ with_current self.old task number }
    {
        for other in self.list.iter_mut() {
            other.update(task, number);
        }
    }

    /// Lets the task of this number act with another credential from now on, where it has fewer
    /// than 8 overrides. All else stays.
    ///
    /// # Errors
    ///
    /// `NoMemory` if an allocation fails: the tasks are as they were.
    pub fn push_override(&mut self, task: u32, number: u64) -> Result<(), NoMemory>
        requires { IfSome (find (λ t. t.number == task) self.old)
            (λ owner. length owner.overrides < DEPTH) }
        ensures ok { OnOk result (OfOneTask self.old task (λ owner. self.new
            ≡ with_overrides self.old task (number ∷ owner.overrides))) }
        ensures err { OnErr result (self.new ≡ self.old) }
    {
        let Some(place) = self.first_place(task) else {
            return Ok(());
        };
        self.list[place].push(number)
    }

    /// Lets the task act again with the credential that it had before its newest override.
    pub fn pop_override(&mut self, task: u32)
        ensures { OfOneTask self.old task (λ owner. self.new
            ≡ with_overrides self.old task (drop 1 owner.overrides)) }
    {
        let Some(place) = self.first_place(task) else {
            return;
        };
        self.list[place].pop();
    }

    /// The other threads of a task's process, in rising order: at most 64.
    ///
    /// # Errors
    ///
    /// `NoMemory` if the allocation of the list fails.
    pub fn others(&self, process: u32, task: u32) -> Result<Vec<u32>, NoMemory>
        ensures others { IfOk result
            (λ others. others.items ≡ others_in process task self.now) }
        ensures few { IfOk result (λ others. length others.items ≤ TASKS) }
    {
        let mut others = Vec::new(self.alloc);
        add_numbers(&self.list, Ending::Others { process, task }, &mut others)?;
        others.sort_unstable();
        Ok(others)
    }

    /// How many tasks end.
    pub fn count(&self, ending: Ending) -> u32
        ensures { result ≡ count_by (ends_by ending) self.now }
    {
        count(&self.list, ending)
    }

    /// The numbers that the ending tasks refer to.
    ///
    /// # Errors
    ///
    /// `NoMemory` if the allocation of the list fails.
    pub fn left(&self, ending: Ending) -> Result<Vec<u64>, NoMemory>
        ensures { IfOk result (λ numbers. numbers.items ≡ left_by (ends_by ending) self.now) }
    {
        let mut numbers = Vec::new(self.alloc);
        add_left(&self.list, ending, &mut numbers)?;
        Ok(numbers)
    }

    /// Removes the tasks that end.
    pub fn end(&mut self, ending: Ending)
        ensures { self.new ≡ survivors (ends_by ending) self.old }
    {
        self.list.retain(|task| !ending.takes(task));
    }
}

/// How many of these tasks end.
fn count(tasks: &[Task], ending: Ending) -> u32
    requires { length tasks.now ≤ TASKS }
    ensures { result ≡ count_by (ends_by ending) tasks.now }
{
    let mut count = 0;
    for task in tasks {
        if ending.takes(task) {
            count += 1;
        }
    }
    count
}

/// Appends the numbers of the ending tasks.
fn add_numbers(tasks: &[Task], ending: Ending, numbers: &mut Vec<u32>) -> Result<(), NoMemory>
    ensures { OnOk result (numbers.new.items
        ≡ numbers.old.items ++ map (λ t. t.number) (filter (ends_by ending) tasks.now)) }
{
    for task in tasks {
        if ending.takes(task) {
            numbers.push(task.number)?;
        }
    }
    Ok(())
}

/// Appends the numbers that the ending tasks refer to.
fn add_left(tasks: &[Task], ending: Ending, numbers: &mut Vec<u64>) -> Result<(), NoMemory>
    ensures { OnOk result (numbers.new.items
        ≡ numbers.old.items ++ left_by (ends_by ending) tasks.now) }
{
    for task in tasks {
        if ending.takes(task) {
            task.refer(numbers)?;
        }
    }
    Ok(())
}
