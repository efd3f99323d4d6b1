//! The events by which tasks are created and end.
ghost use Rattle.std.specs.Prelude.{◌≡◌, ◌<◌, ℕ, true, is_some, length, Ok, None, Some, IfOk};
ghost use Rattle.std.specs.Prelude.{OnErr};
ghost use Rattle.std.specs.Prelude.{MatchOption, MatchResult};
ghost use Rattle.cred_ids.specs.Limits.{TASKS};
ghost use Rattle.cred_record.specs.Credential.{first_credential};
ghost use Rattle.cred_model.specs.Broadcasts.{not_busy};
ghost use Rattle.cred_model.specs.Dumpable.{flag_in};
ghost use Rattle.cred_model.specs.Like.{Gives, GivesLike};
ghost use Rattle.cred_model.specs.State.{broadcast_in, task_of};
ghost use Rattle.cred_model.specs.TaskEvents.{by_exit, by_fork, by_init, by_spawn};
ghost use Rattle.cred_procs.specs.Tasks.{has_process};
ghost use Rattle.cred_sound.specs.Sound.{IsSound};
ghost use Rattle.cred_tables.specs.Kept.{seen_in};
ghost use Rattle.cred_tables.specs.Out.{AreOut};
ghost use Rattle.cred_state.specs.Refusals.{by_creating, IsUnusedProcess, MayCreate};

use crate::state::State;
use cred_event::{Answer, Counted, Named};
use cred_hold::Cells;
use cred_ids::{Id, NoMemory};
use cred_record::{Cred, first};
use cred_tables::{NumberedSlot, drop_all, exit_in, fork_in, seal_next, spawn_in, start_in};

impl State {
    /// A first task is created, with its first credential, in a namespace where root has the user
    /// id `root`. A process that begins with it is dumpable. `Busy`, `Exists` and `TooMany` leave
    /// the state; `TableFull` leaves it swept.
    ///
    /// # Errors
    ///
    /// `NoMemory` if an allocation of the credential or of room for the task fails: the state is as
    /// it was.
    pub fn init(
        &mut self,
        cells: &Cells,
        number: u32,
        process: u32,
        user: Id,
        group: Id,
        ns: u32,
        root: Id,
    ) -> Result<Answer, NoMemory>
        requires own { self.old.words.id ≡ cells.now }
        requires out { AreOut self.old.state self.old.words.out }
        requires sound { IsSound self.old.state }
        ensures ok { IfOk result (λ answer.
            GivesLike self.old.state (by_init self.old.state number process user group ns root)
            answer self.new.state) }
        ensures err { OnErr result (self.new ≡ self.old) }
        ensures words { self.new.words ≡ self.old.words }
    {
        if let Some(broadcast) = self.open_in(process) {
            return Ok(Answer::Busy(broadcast));
        }
        if self.tasks.alive(number) {
            return Ok(Answer::Exists {
                what: Named::Task,
                number,
            });
        }
        if self.tasks.full() {
            return Ok(Answer::TooMany(Counted::Tasks));
        }
        let cred = first(self.alloc, user, group, ns, root)?;
        let answer = self.start_with(cells, number, process, &cred);
        drop(cred);
        answer
    }

    /// A first task is created with this credential, which nothing refuses.
    ///
    /// # Errors
    ///
    /// `NoMemory` if an allocation of room for the task or for its reference fails: the state is as
    /// it was.
    fn start_with(
        &mut self,
        cells: &Cells,
        number: u32,
        process: u32,
        cred: &Cred,
    ) -> Result<Answer, NoMemory>
        requires own { self.old.words.id ≡ cells.now }
        requires out { AreOut self.old.state self.old.words.out }
        requires idle { not_busy (broadcast_in self.old.state process) ≡ Ok tt }
        requires new { task_of self.old.state number ≡ None }
        requires room { length self.old.state.tasks < TASKS }
        requires flag { is_some (flag_in self.old.state.dumpable process)
            ≡ has_process self.old.state.tasks process }
        ensures ok { (user group ns root : ℕ) → cred.now ≡ first_credential user group ns root
            → IfOk result (λ answer. GivesLike self.old.state
            (by_init self.old.state number process user group ns root) answer self.new.state) }
        ensures err { OnErr result (self.new ≡ self.old) }
        ensures words { self.new.words ≡ self.old.words }
    {
        self.slots.reserve()?;
        let Some(slot) = self.slots.free_slot() else {
            self.slots.sweep();
            return Ok(Answer::TableFull);
        };
        // The task is entered before its credential is sealed, since that may take memory.
        let next = self.slots.next_number();
        start_in(&mut self.tasks, &mut self.flags, number, process, next)?;
        let current = seal_next(&mut self.slots, slot);
        self.master.set(cells, slot, cred);
        Ok(Answer::Sealed {
            cred: current,
            slot,
        })
    }

    /// A task creates a thread of its process (clone(2) with CLONE_THREAD), which shares its
    /// current credential, and waits where its creator waits. The refusals leave the state.
    ///
    /// # Errors
    ///
    /// `NoMemory` if an allocation of room for the child, for its reference or for its place among
    /// those that wait fails: the state is as it was.
    pub fn spawn(&mut self, task: u32, child: u32) -> Result<Answer, NoMemory>
        requires { IsSound self.old.state }
        ensures ok { IfOk result (λ answer.
            Gives self.old.state (by_spawn self.old.state task child) answer self.new.state) }
        ensures err { OnErr result (self.new ≡ self.old) }
        ensures words { self.new.words ≡ self.old.words }
    {
        let NumberedSlot { number, slot } = match self.may_create(task, child, None) {
            Ok(now) => now,
            Err(answer) => return Ok(answer),
        };
        self.slots.reserve()?;
        spawn_in(&mut self.tasks, &mut self.broadcasts, task, child)?;
        self.slots.add(number);
        Ok(Answer::Sealed { cred: number, slot })
    }

    /// A task creates a process (fork(2)), whose one thread shares its current credential. It is
    /// dumpable where the task's is. The refusals leave the state.
    ///
    /// # Errors
    ///
    /// `NoMemory` if an allocation of room for the child or for its reference fails: the state is
    /// as it was.
    pub fn fork(&mut self, task: u32, child: u32, process: u32) -> Result<Answer, NoMemory>
        requires { IsSound self.old.state }
        ensures ok { IfOk result (λ answer.
            Gives self.old.state (by_fork self.old.state task child process) answer
            self.new.state) }
        ensures err { OnErr result (self.new ≡ self.old) }
        ensures words { self.new.words ≡ self.old.words }
    {
        let NumberedSlot { number, slot } = match self.may_create(task, child, Some(process)) {
            Ok(now) => now,
            Err(answer) => return Ok(answer),
        };
        self.slots.reserve()?;
        fork_in(&mut self.tasks, &mut self.flags, task, child, process)?;
        self.slots.add(number);
        Ok(Answer::Sealed { cred: number, slot })
    }

    /// The current credential of a task that may create another, as a thread of its own process or
    /// as the first of a new one. `Err` with what refuses it.
    fn may_create(
        &self,
        task: u32,
        child: u32,
        process: Option<u32>,
    ) -> Result<NumberedSlot, Answer>
        ensures { MatchResult result
            (λ now. MayCreate self.now.state task child (seen_in self.now.state.creds now)
            × IsUnusedProcess self.now.state process)
            (λ answer. Gives self.now.state (by_creating self.now.state task child process) answer
            self.now.state) }
    {
        let Some(now) = self.current(task) else {
            return Err(Answer::NoTask(task));
        };
        if let Some(broadcast) = self.begun(task) {
            return Err(Answer::Busy(broadcast));
        }
        if self.tasks.alive(child) {
            return Err(Answer::Exists {
                what: Named::Task,
                number: child,
            });
        }
        if let Some(number) = self.in_use(process) {
            return Err(Answer::Exists {
                what: Named::Process,
                number,
            });
        }
        if let Some(depth) = self.overridden(task) {
            return Err(Answer::Overridden(depth));
        }
        if self.tasks.full() {
            return Err(Answer::TooMany(Counted::Tasks));
        }
        Ok(now)
    }

    /// The number of the process that is to be new, if a task is of it.
    fn in_use(&self, process: Option<u32>) -> Option<u32>
        ensures { MatchOption result (IsUnusedProcess self.now.state process) (λ number.
            (process ≡ Some number) × (has_process self.now.state.tasks number ≡ true)) }
    {
        let number = process?;
        if self.tasks.has_process(number) {
            return Some(number);
        }
        None
    }

    /// A task ends, and what it referred to is given up. It waits in no broadcast any more; its
    /// holds and prepared labels stay. Its process ends with it where it has no other thread.
    /// `NoTask`, `Busy`, and `Overridden` while it acts with another credential than its current
    /// one, leave the state.
    ///
    /// # Errors
    ///
    /// `NoMemory` if the allocation of a list fails: the state is as it was.
    pub fn exit(&mut self, task: u32) -> Result<Answer, NoMemory>
        ensures ok { IfOk result (λ answer.
            Gives self.old.state (by_exit self.old.state task) answer self.new.state) }
        ensures err { OnErr result (self.new ≡ self.old) }
        ensures words { self.new.words ≡ self.old.words }
    {
        if !self.tasks.alive(task) {
            return Ok(Answer::NoTask(task));
        }
        if let Some(broadcast) = self.begun(task) {
            return Ok(Answer::Busy(broadcast));
        }
        if let Some(depth) = self.overridden(task) {
            return Ok(Answer::Overridden(depth));
        }
        let numbers = exit_in(&mut self.tasks, &mut self.flags, task)?;
        drop_all(&mut self.slots, numbers.items());
        self.broadcasts.remove_task(task);
        Ok(Answer::Done)
    }
}
