//! The table of tasks.
ghost use Rattle.std.specs.Prelude.{◌≡◌, ◌<◌, Bool, not, nat_lt, is_some, [], ◌∷◌, ◌++◌, drop};
ghost use Rattle.std.specs.Prelude.{length, slice_get, false, None, IfNone, IfOk, IfSome, OnOk};
ghost use Rattle.std.specs.Prelude.{OnErr, if◌then◌else◌};
ghost use Rattle.std.specs.Option.{option_map, IsSome};
ghost use Rattle.cred_ids.specs.Limits.{TASKS, DEPTH};
ghost use Rattle.cred_model.specs.Ends.{is_task, is_thread_of, is_beside, survivors, left_by};
ghost use Rattle.cred_model.specs.State.{Task, acting};
ghost use Rattle.cred_model.specs.Moves.{first_task, with_overrides};
ghost use Rattle.cred_procs.specs.Kept.{task_as};
ghost use Rattle.cred_procs.specs.Tasks.{AreTasks, EndsTasks, task_in, those, threads_of};
ghost use Rattle.cred_procs.specs.Tasks.{has_process, spawned, forked, overrides_of};

mod places;

use crate::lists::{CredNumbers, TaskList};
use crate::processes::{Processes, without};
use crate::thread::Thread;
use cred_ids::{NoMemory, limits};
use cred_slots::Stack;
use indexmap::IndexMap;
use std::alloc::Global;
use std::marker::Model;

/// The live tasks: at most 64, no two of one number. Contracts see the list of the tasks, in the
/// order in which they were created. After `NoMemory` a table is as it was.
#[derive(Drop, Debug)]
pub struct Procs {
    tasks: IndexMap<u32, Thread>,
    processes: Processes,
    /// Where the task stood that was given a credential last. Another may stand there by now, or
    /// none: a task is taken from there only where its number is the one that is looked for.
    recent: usize,
    alloc: Global,
}

impl Model for Procs {
    ghost use Rattle.std.specs.Prelude.{List};
    ghost use Rattle.cred_model.specs.State.{Task};
    ghost use Rattle.cred_procs.specs.Kept.{tasks_of, AreGrouped};

    ghost Value = { List Task };

    ghost view = { λ p. tasks_of p.tasks.entries };

    ghost invariant = { λ p. AreGrouped (tasks_of p.tasks.entries) p.processes };
}

/// The tasks that ended, in the order in which they were created, and the numbers that they
/// referred to, task by task: the current credential's first and then those of the overrides, the
/// newest first. A number stands there once for each place that referred to it.
#[derive(Drop)]
pub struct Ended {
    pub tasks: TaskList,
    pub numbers: CredNumbers,
}

impl Procs {
    /// No task. No memory is taken.
    pub fn new(alloc: Global) -> Procs
        ensures { result ≡ [] }
    {
        Procs {
            tasks: IndexMap::new(alloc),
            processes: Processes::new(alloc),
            recent: 0,
            alloc,
        }
    }

    /// Whether the task is alive.
    pub fn alive(&self, task: u32) -> bool
        ensures { result ≡ is_some (task_in self.now task) }
    {
        self.thread(task).is_some()
    }

    /// Whether as many tasks are alive as may be.
    pub fn full(&self) -> bool
        ensures full { result ≡ not (nat_lt (length self.now) TASKS) }
        ensures tasks { AreTasks self.now }
    {
        self.tasks.len() >= limits::TASKS
    }

    /// The process of a task. `None` where the task isn't alive.
    pub fn process_of(&self, task: u32) -> Option<u32>
        ensures { result ≡ option_map (λ t. t.process) (task_in self.now task) }
    {
        Some(self.thread(task)?.process)
    }

    /// The number of a task's current credential, which decides when the task is acted on (its
    /// objective credential). `None` where the task isn't alive.
    pub fn current(&self, task: u32) -> Option<u64>
        ensures { result ≡ option_map (λ t. t.current) (task_in self.now task) }
    {
        Some(self.thread(task)?.current)
    }

    /// The number of the credential that a task acts with: of its newest override, or of its
    /// current credential where it has none. `None` where the task isn't alive.
    pub fn subjective(&self, task: u32) -> Option<u64>
        ensures { result ≡ option_map acting (task_in self.now task) }
    {
        let thread = self.thread(task)?;
        Some(thread.overrides.top().unwrap_or(thread.current))
    }

    /// How many overrides a task has: 0 to 8. `None` where the task isn't alive.
    pub fn depth(&self, task: u32) -> Option<u32>
        ensures { result ≡ option_map (λ t. length t.overrides) (task_in self.now task) }
    {
        Some(self.thread(task)?.overrides.depth())
    }

    /// Whether a process has a thread.
    pub fn has_process(&self, process: u32) -> bool
        ensures { result ≡ has_process self.now process }
    {
        !self.processes.threads(process).is_empty()
    }

    /// A first task is created.
    ///
    /// # Errors
    ///
    /// `NoMemory` if an allocation fails: nothing changes.
    pub fn start(&mut self, task: u32, process: u32, number: u64) -> Result<(), NoMemory>
        requires new { task_in self.old task ≡ None }
        requires room { length self.old < TASKS }
        ensures ok { OnOk result (self.new ≡ self.old ++ first_task task process number ∷ []) }
        ensures err { OnErr result (self.new ≡ self.old) }
    {
        self.tasks.reserve(1)?;
        self.processes.add(process, task)?;
        // There is room for it.
        self.tasks.insert(
            task,
            Thread {
                process,
                current: number,
                overrides: Stack::new(),
            },
        )?;
        Ok(())
    }

    /// A task creates a thread of its process (clone(2) with CLONE_THREAD), which shares its
    /// current credential and overrides nothing.
    ///
    /// # Errors
    ///
    /// `NoMemory` if an allocation fails: nothing changes.
    pub fn spawn(&mut self, task: u32, child: u32) -> Result<(), NoMemory>
        requires alive { IsSome (task_in self.old task) }
        requires new { task_in self.old child ≡ None }
        requires room { length self.old < TASKS }
        ensures ok { OnOk result (self.new ≡ spawned self.old task child) }
        ensures err { OnErr result (self.new ≡ self.old) }
    {
        // Both are there: the task is alive.
        let process = self.process_of(task).unwrap();
        let current = self.current(task).unwrap();
        self.start(child, process, current)
    }

    /// A task creates a process (fork(2)), whose one thread shares its current credential and
    /// overrides nothing.
    ///
    /// # Errors
    ///
    /// `NoMemory` if an allocation fails: nothing changes.
    pub fn fork(&mut self, task: u32, child: u32, process: u32) -> Result<(), NoMemory>
        requires alive { IsSome (task_in self.old task) }
        requires new { task_in self.old child ≡ None }
        requires room { length self.old < TASKS }
        requires new_process { has_process self.old process ≡ false }
        ensures ok { OnOk result (self.new ≡ forked self.old task child process) }
        ensures err { OnErr result (self.new ≡ self.old) }
    {
        // It is there: the task is alive.
        let number = self.current(task).unwrap();
        self.start(child, process, number)
    }

    /// The threads of a process, in rising order.
    ///
    /// # Errors
    ///
    /// `NoMemory` if an allocation fails.
    pub fn threads(&self, process: u32) -> Result<TaskList, NoMemory>
        ensures { IfOk result (λ tasks. tasks ≡ threads_of self.now process) }
    {
        let mut tasks = Vec::from_slice(self.alloc, self.processes.threads(process))?;
        tasks.sort()?;
        Ok(TaskList::from_vec(tasks))
    }

    /// A task acts with another credential from now on (Linux's `override_creds`). `false`
    /// where it has 8 overrides, and then nothing changes.
    pub fn push_override(&mut self, task: u32, number: u64) -> bool
        requires { IsSome (task_in self.old task) }
        ensures pushed { result ≡ nat_lt (length (overrides_of self.old task)) DEPTH }
        ensures tasks { self.new ≡ (if result
            then with_overrides self.old task (number ∷ overrides_of self.old task)
            else self.old) }
    {
        // It is there: the task is alive.
        let thread = self.tasks.get_mut(&task).unwrap();
        thread.overrides.push(number)
    }

    /// A task goes back to the credential that it acted with before its newest override
    /// (Linux's `revert_creds`). Returns the number of that override. `None` where it has no
    /// override, and then nothing changes.
    pub fn pop_override(&mut self, task: u32) -> Option<u64>
        requires { IsSome (task_in self.old task) }
        ensures number { result ≡ slice_get (overrides_of self.old task) 0 }
        ensures none { IfNone result (self.new ≡ self.old) }
        ensures tasks { self.new
            ≡ with_overrides self.old task (drop 1 (overrides_of self.old task)) }
    {
        // It is there: the task is alive.
        let thread = self.tasks.get_mut(&task).unwrap();
        thread.overrides.pop()
    }

    /// A task ends. Returns the numbers that it referred to: its current credential's first, and
    /// then those of its overrides, the newest first.
    ///
    /// # Errors
    ///
    /// `NoMemory` if an allocation fails: nothing changes.
    pub fn exit(&mut self, task: u32) -> Result<CredNumbers, NoMemory>
        requires { IsSome (task_in self.old task) }
        ensures numbers { IfOk result (λ numbers. numbers ≡ left_by (is_task task) self.old) }
        ensures tasks { OnOk result (self.new ≡ survivors (is_task task) self.old) }
        ensures err { OnErr result (self.new ≡ self.old) }
    {
        let numbers = self.numbers_in(&[task])?;
        self.remove(task);
        Ok(numbers)
    }

    /// All other threads of a task's process end, as when it calls execve(2).
    ///
    /// # Errors
    ///
    /// `NoMemory` if an allocation fails: nothing changes.
    pub fn dethread(&mut self, task: u32) -> Result<Ended, NoMemory>
        requires { IsSome (task_in self.old task) }
        ensures ended { IfOk result (λ ended. IfSome (task_in self.old task) (λ owner.
            EndsTasks (is_beside owner) self.old self.new ended.tasks ended.numbers)) }
        ensures err { OnErr result (self.new ≡ self.old) }
    {
        // It is there: the task is alive.
        let process = self.process_of(task).unwrap();
        let others = self.others(process, task)?;
        self.end(others)
    }

    /// All threads of a process end. None does where the process has none.
    ///
    /// # Errors
    ///
    /// `NoMemory` if an allocation fails: nothing changes.
    pub fn end_process(&mut self, process: u32) -> Result<Ended, NoMemory>
        ensures ended { IfOk result (λ ended.
            EndsTasks (is_thread_of process) self.old self.new ended.tasks ended.numbers) }
        ensures err { OnErr result (self.new ≡ self.old) }
    {
        let threads = TaskList::of(self.alloc, self.processes.threads(process))?;
        self.end(threads)
    }

    /// What is kept of a task. `None` where it isn't alive.
    #[inline(always)]
    fn thread(&self, task: u32) -> Option<&Thread>
        ensures { option_map (λ t. task_as task t.now) result ≡ task_in self.now task }
    {
        let place = self.place_of(task)?;
        Some(&self.tasks[place])
    }

    /// The other threads of a task's process, which is this one, in the order in which they were
    /// created.
    ///
    /// # Errors
    ///
    /// `NoMemory` if an allocation fails.
    pub fn others(&self, process: u32, task: u32) -> Result<TaskList, NoMemory>
        requires { option_map (λ t. t.process) (task_in self.now task) ≡ Some process }
        ensures others { IfOk result (λ tasks. IfSome (task_in self.now task) (λ owner.
            tasks ≡ those (is_beside owner) self.now)) }
        ensures tasks { AreTasks self.now }
    {
        let others = without(self.alloc, self.processes.threads(process), task)?;
        Ok(TaskList::from_vec(others))
    }

    /// The numbers that these tasks refer to, task by task. The tasks come in the order in which
    /// they were created.
    fn numbers_in(&self, tasks: &[u32]) -> Result<CredNumbers, NoMemory>
        ensures numbers { IfOk result (λ numbers. (ends : Task → Bool)
            → tasks.now ≡ those ends self.now → numbers ≡ left_by ends self.now) }
        ensures tasks { AreTasks self.now }
    {
        let mut numbers = Vec::new(self.alloc);
        for task in tasks {
            if let Some(thread) = self.thread(*task) {
                refer(thread, &mut numbers)?;
            }
        }
        Ok(CredNumbers::from_vec(numbers))
    }

    /// Ends these tasks, which come in the order in which they were created.
    fn end(&mut self, tasks: TaskList) -> Result<Ended, NoMemory>
        ensures ended { IfOk result (λ ended. (ends : Task → Bool) → tasks ≡ those ends self.old
            → EndsTasks ends self.old self.new ended.tasks ended.numbers) }
        ensures err { OnErr result (self.new ≡ self.old) }
    {
        let numbers = self.numbers_in(tasks.items())?;
        for task in tasks.items() {
            self.remove(*task);
        }
        Ok(Ended { tasks, numbers })
    }

    /// Removes a task. Where there is none of that number, nothing changes.
    pub fn remove(&mut self, task: u32)
        ensures { self.new ≡ survivors (is_task task) self.old }
    {
        if let Some(thread) = self.tasks.shift_remove(&task) {
            self.processes.remove(thread.process, task);
        }
    }
}

/// Appends the numbers that a task refers to.
fn refer(thread: &Thread, numbers: &mut Vec<u64>) -> Result<(), NoMemory>
    ensures { OnOk result (numbers.new.items
        ≡ numbers.old.items ++ thread.now.current ∷ thread.now.overrides) }
{
    numbers.push(thread.current)?;
    for number in thread.overrides.oldest_first().iter().rev() {
        numbers.push(*number)?;
    }
    Ok(())
}
