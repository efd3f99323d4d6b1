//! The events by which tasks are created and end.
ghost use Rattle.std.specs.Prelude.{◌≡◌, IfOk, OnErr};
ghost use Rattle.cred_model.specs.Like.{Gives};
ghost use Rattle.cred_model.specs.TaskEvents.{by_exit, by_fork, by_init, by_spawn};
ghost use Rattle.cred_sound.specs.Sound.{IsSound};

use crate::processes;
use crate::slots::{Room, defer_left, sweep_if};
use crate::state::{State, overridden};
use cred_event::{Answer, Counted, Named};
use cred_ids::{Id, NoMemory};
use cred_plain::broadcasts::{begun_by, join, leave, open_in};
use cred_plain::{Ending, Numbered, Task};
use cred_record::first;

impl State {
    /// Creates a first task, with its first credential, in a namespace where root has the user id
    /// `root`. `Busy`, `Exists` and `TooMany` leave the state; `TableFull` leaves it swept.
    ///
    /// # Errors
    ///
    /// `NoMemory` if an allocation fails: the state is as it was.
    pub(crate) fn init(
        &mut self,
        number: u32,
        process: u32,
        user: Id,
        group: Id,
        ns: u32,
        root: Id,
    ) -> Result<Answer, NoMemory>
        requires sound { IsSound self.old }
        ensures ok { IfOk result (λ answer.
            Gives self.old (by_init self.old number process user group ns root) answer self.new) }
        ensures err { OnErr result (self.new ≡ self.old) }
    {
        if let Some(broadcast) = open_in(&self.broadcasts, process) {
            return Ok(Answer::Busy(broadcast));
        }
        if self.tasks.alive(number) {
            return Ok(Answer::Exists {
                what: Named::Task,
                number,
            });
        }
        if self.tasks.full() {
            return Ok(Answer::TooMany(Counted::Tasks));
        }
        let Room { slot, swept } = self.room()?;
        let Some(slot) = slot else {
            return Ok(self.table_full());
        };
        self.creds.reserve()?;
        let cred = first(self.alloc, user, group, ns, root)?;
        let next = self.creds.next_number();
        let task = Task::first(self.alloc, number, process, next);
        processes::enter(&mut self.tasks, &mut self.flags, task)?;
        sweep_if(&mut self.deferred, swept);
        self.creds.seal(cred, slot);
        Ok(Answer::Sealed { cred: next, slot })
    }

    /// A task creates a thread of its process (clone(2) with CLONE_THREAD), which shares its
    /// current credential, and waits where its creator waits. The refusals leave the state.
    ///
    /// # Errors
    ///
    /// `NoMemory` if an allocation fails: the state is as it was.
    pub(crate) fn spawn(&mut self, task: u32, child: u32) -> Result<Answer, NoMemory>
        requires { IsSound self.old }
        ensures ok { IfOk result (λ answer.
            Gives self.old (by_spawn self.old task child) answer self.new) }
        ensures err { OnErr result (self.new ≡ self.old) }
    {
        let Some(owner) = self.tasks.get(task) else {
            return Ok(Answer::NoTask(task));
        };
        let Some(Numbered { number, slot, .. }) = self.creds.get(owner.current) else {
            return Ok(Answer::NoTask(task));
        };
        if let Some(broadcast) = begun_by(&self.broadcasts, task) {
            return Ok(Answer::Busy(broadcast));
        }
        if self.tasks.alive(child) {
            return Ok(Answer::Exists {
                what: Named::Task,
                number: child,
            });
        }
        if let Some(depth) = overridden(owner) {
            return Ok(Answer::Overridden(depth));
        }
        if self.tasks.full() {
            return Ok(Answer::TooMany(Counted::Tasks));
        }
        let thread = Task::first(self.alloc, child, owner.process, number);
        self.tasks.push(thread)?;
        if let Err(err) = join(&mut self.broadcasts, task, child) {
            self.tasks.pop();
            return Err(err);
        }
        Ok(Answer::Sealed { cred: number, slot })
    }

    /// A task creates a process (fork(2)), whose one thread shares its current credential. It is
    /// dumpable where the task's is. The refusals leave the state.
    ///
    /// # Errors
    ///
    /// `NoMemory` if an allocation fails: the state is as it was.
    pub(crate) fn fork(&mut self, task: u32, child: u32, process: u32) -> Result<Answer, NoMemory>
        requires sound { IsSound self.old }
        ensures ok { IfOk result (λ answer.
            Gives self.old (by_fork self.old task child process) answer self.new) }
        ensures err { OnErr result (self.new ≡ self.old) }
    {
        let Some(owner) = self.tasks.get(task) else {
            return Ok(Answer::NoTask(task));
        };
        let Some(Numbered { number, slot, .. }) = self.creds.get(owner.current) else {
            return Ok(Answer::NoTask(task));
        };
        if let Some(broadcast) = begun_by(&self.broadcasts, task) {
            return Ok(Answer::Busy(broadcast));
        }
        if self.tasks.alive(child) {
            return Ok(Answer::Exists {
                what: Named::Task,
                number: child,
            });
        }
        if self.tasks.has_process(process) {
            return Ok(Answer::Exists {
                what: Named::Process,
                number: process,
            });
        }
        if let Some(depth) = overridden(owner) {
            return Ok(Answer::Overridden(depth));
        }
        if self.tasks.full() {
            return Ok(Answer::TooMany(Counted::Tasks));
        }
        let dumpable = self.flags.is_dumpable(owner.process);
        let thread = Task::first(self.alloc, child, process, number);
        processes::begin_process(&mut self.tasks, &mut self.flags, thread, dumpable)?;
        Ok(Answer::Sealed { cred: number, slot })
    }

    /// A task ends, and what it referred to is given up. It waits in no broadcast any more; its
    /// holds and prepared labels stay. `NoTask`, `Busy`, and `Overridden` while it acts with
    /// another credential than its current one, leave the state.
    ///
    /// # Errors
    ///
    /// `NoMemory` if an allocation fails: the state is as it was.
    pub(crate) fn exit(&mut self, task: u32) -> Result<Answer, NoMemory>
        ensures ok { IfOk result (λ answer.
            Gives self.old (by_exit self.old task) answer self.new) }
        ensures err { OnErr result (self.new ≡ self.old) }
    {
        let Some(owner) = self.tasks.get(task) else {
            return Ok(Answer::NoTask(task));
        };
        if let Some(broadcast) = begun_by(&self.broadcasts, task) {
            return Ok(Answer::Busy(broadcast));
        }
        if let Some(depth) = overridden(owner) {
            return Ok(Answer::Overridden(depth));
        }
        let process = owner.process;
        let has_other = self.tasks.has_other(process, task);
        let ending = Ending::Task(task);
        defer_left(&mut self.deferred, false, &self.tasks, ending)?;
        self.tasks.end(ending);
        leave(&mut self.broadcasts, task);
        self.flags.leave(process, has_other);
        Ok(Answer::Done)
    }
}
