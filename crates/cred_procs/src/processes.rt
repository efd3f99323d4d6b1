//! The threads of each process.
ghost use Rattle.std.specs.Prelude.{◌≡◌, ℕ, ◌==◌, not, filter, [], ◌∷◌, ◌++◌, if◌then◌else◌, OnOk};
ghost use Rattle.std.specs.Prelude.{IfOk, OnErr};
ghost use Rattle.cred_procs.specs.Kept.{threads_at};

use cred_ids::NoMemory;
use indexmap::IndexMap;
use std::alloc::Global;

/// The threads of each process that has some, in the order in which they were created.
#[derive(Drop, Debug)]
pub struct Processes {
    threads: IndexMap<u32, Vec<u32>>,
    alloc: Global,
}

impl Processes {
    /// No process has a thread.
    pub fn new(alloc: Global) -> Processes
        ensures { (p : ℕ) → threads_at result p ≡ [] }
    {
        Processes {
            threads: IndexMap::new(alloc),
            alloc,
        }
    }

    /// The threads of a process.
    pub fn threads(&self, process: u32) -> &[u32]
        ensures { result.now ≡ threads_at self.now process }
    {
        match self.threads.get(&process) {
            Some(threads) => threads.as_slice(),
            None => &[],
        }
    }

    /// A task becomes the newest thread of a process. If an allocation fails, no threads change.
    pub fn add(&mut self, process: u32, task: u32) -> Result<(), NoMemory>
        ensures ok { OnOk result ((p : ℕ) → threads_at self.new p
            ≡ (if p == process
            then threads_at self.old p ++ task ∷ []
            else threads_at self.old p)) }
        ensures err { OnErr result ((p : ℕ) → threads_at self.new p ≡ threads_at self.old p) }
    {
        if let Some(threads) = self.threads.get_mut(&process) {
            threads.push(task)?;
            return Ok(());
        }
        let mut threads = Vec::new(self.alloc);
        threads.push(task)?;
        self.threads.insert(process, threads)?;
        Ok(())
    }

    /// Removes a task from the threads of a process.
    pub fn remove(&mut self, process: u32, task: u32)
        ensures { (p : ℕ) → threads_at self.new p ≡ (if p == process
            then filter (λ n. not (n == task)) (threads_at self.old p)
            else threads_at self.old p) }
    {
        if let Some(threads) = self.threads.get_mut(&process) {
            take_off(threads, task);
        }
        self.forget_empty(process);
    }

    /// Removes a process that has no thread left.
    fn forget_empty(&mut self, process: u32)
        ensures { (p : ℕ) → threads_at self.new p ≡ threads_at self.old p }
    {
        if self.threads(process).is_empty() {
            self.threads.swap_remove(&process);
        }
    }
}

/// These tasks without one. Where none is left no memory is taken.
pub fn without(alloc: Global, tasks: &[u32], task: u32) -> Result<Vec<u32>, NoMemory>
    ensures { IfOk result (λ others. others.items ≡ filter (λ n. not (n == task)) tasks.now) }
{
    if tasks.iter().all(|other| *other == task) {
        return Ok(Vec::new(alloc));
    }
    let mut others = Vec::from_slice(alloc, tasks)?;
    take_off(&mut others, task);
    Ok(others)
}

/// Takes a task off the list.
fn take_off(tasks: &mut Vec<u32>, task: u32)
    ensures { tasks.new.items ≡ filter (λ n. not (n == task)) tasks.old.items }
{
    tasks.retain(|other| *other != task);
}
