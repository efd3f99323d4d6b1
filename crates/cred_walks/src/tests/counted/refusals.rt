//! What the lists refuse an event by, before any rule on credentials is asked.
use crate::tests::counted::lists::{Lists, Owner, Purpose};
use cred_event::{Event, Named};

/// How many credentials a task may act with in place of its own.
const DEPTH: usize = 8;

/// The answers that refuse an event, named as `cred_event::Answer` has them. They are copied, and
/// nothing has to be dropped.
#[derive(Clone, Copy)]
pub(crate) enum ExpectedRefusal {
    Ebadf,
    NoTask(u32),
    NoHold(u32),
    NoPrepared(u32),
    NoBroadcast(u32),
    Busy(u32),
    Exists { what: Named, number: u32 },
    Overridden(u32),
    NotOverridden,
    TooDeep,
    Stale { base: u64, now: u64 },
}

/// Refused by this answer where it does not hold.
fn unless(holds: bool, due: ExpectedRefusal) -> Option<ExpectedRefusal> {
    if holds { None } else { Some(due) }
}

fn exists(holds: bool, what: Named, number: u32) -> Option<ExpectedRefusal> {
    unless(!holds, ExpectedRefusal::Exists { what, number })
}

impl Lists {
    /// What the event of a line is refused by; each event has its tests in their order. No script
    /// here reaches the greatest number of tasks, files, holds or labels.
    pub(crate) fn refusal(&self, line: u32, event: &Event) -> Option<ExpectedRefusal> {
        match event {
            Event::Take { label, task, .. } => self.no_task(*task).or(self.has_label(*label)),
            Event::TakeFile { label, fd } => self.ebadf(*fd).or(self.has_label(*label)),
            Event::Release { label: hold }
            | Event::Ask { label: hold, .. }
            | Event::Chown { hold, .. }
            | Event::Chmod { hold, .. }
            | Event::SetAttr { hold, .. }
            | Event::Stat { hold, .. } => self.no_hold(*hold),
            Event::Signal {
                from,
                hold,
                to,
                target,
            } => self
                .no_task(*from)
                .or(self.no_task(*to))
                .or(self.no_hold(*hold))
                .or(self.no_hold(*target)),
            Event::Prepare { label, task, hold } => self
                .no_task(*task)
                .or(self.busy(*task))
                .or(self.no_hold(*hold))
                .or(self.has_label(*label)),
            Event::Alter { label, .. } | Event::Abort { label } => {
                unless(
                    self.has(Owner::Prepared(*label)),
                    ExpectedRefusal::NoPrepared(*label),
                )
            }
            Event::Commit { label } => self.no_commit(*label),
            Event::OpenFile { hold, fd, .. } => {
                let is_open = self.has(Owner::File(*fd));
                self.no_hold(*hold).or(exists(is_open, Named::File, *fd))
            }
            Event::CloseFile { fd } => self.ebadf(*fd),
            _ => self.task_refusal(line, event),
        }
    }

    /// The same of the events that concern a task with its overrides and broadcasts.
    fn task_refusal(&self, line: u32, event: &Event) -> Option<ExpectedRefusal> {
        match event {
            Event::Init { task, process, .. } => self.open_in(*process).or(self.has_task(*task)),
            Event::Override { task, label } => self
                .no_task(*task)
                .or(self.no_override(*task, *label))
                .or(unless(self.depth(*task) < DEPTH, ExpectedRefusal::TooDeep)),
            Event::Revert { task } => self.no_task(*task).or(unless(
                self.depth(*task) != 0,
                ExpectedRefusal::NotOverridden,
            )),
            Event::Begin { task, .. } => self
                .no_task(*task)
                .or(self.open_beside(*task))
                .or(exists(self.is_open(line), Named::Broadcast, line))
                .or(self.overridden(*task)),
            Event::Raw { task, .. } => self
                .no_task(*task)
                .or(self.open_beside(*task))
                .or(self.overridden(*task)),
            Event::Act { broadcast } => unless(
                self.is_open(*broadcast),
                ExpectedRefusal::NoBroadcast(*broadcast),
            ),
            Event::Spawn { task, child } => self
                .no_task(*task)
                .or(self.busy(*task))
                .or(self.has_task(*child))
                .or(self.overridden(*task)),
            Event::Fork {
                task,
                child,
                process,
            } => self
                .no_task(*task)
                .or(self.busy(*task))
                .or(self.has_task(*child))
                .or(self.has_process(*process))
                .or(self.overridden(*task)),
            Event::Exit { task } => self
                .no_task(*task)
                .or(self.busy(*task))
                .or(self.overridden(*task)),
            _ => None,
        }
    }

    fn no_task(&self, task: u32) -> Option<ExpectedRefusal> {
        unless(self.has(Owner::Task(task)), ExpectedRefusal::NoTask(task))
    }

    fn has_task(&self, task: u32) -> Option<ExpectedRefusal> {
        exists(self.has(Owner::Task(task)), Named::Task, task)
    }

    fn has_process(&self, process: u32) -> Option<ExpectedRefusal> {
        let holds = self.tasks.iter().any(|task| task.process == process);
        exists(holds, Named::Process, process)
    }

    fn no_hold(&self, label: u32) -> Option<ExpectedRefusal> {
        unless(self.has(Owner::Hold(label)), ExpectedRefusal::NoHold(label))
    }

    /// A hold or a prepared label has the label already.
    fn has_label(&self, label: u32) -> Option<ExpectedRefusal> {
        let holds = self.has(Owner::Hold(label)) || self.has(Owner::Prepared(label));
        exists(holds, Named::Label, label)
    }

    fn ebadf(&self, fd: u32) -> Option<ExpectedRefusal> {
        unless(self.has(Owner::File(fd)), ExpectedRefusal::Ebadf)
    }

    /// The broadcast of this number is open.
    fn is_open(&self, broadcast: u32) -> bool {
        self.waiting.iter().any(|own| own.broadcast == broadcast)
    }

    /// The task is the caller of an open broadcast.
    fn busy(&self, task: u32) -> Option<ExpectedRefusal> {
        let own = self.waiting.iter().find(|own| own.caller == task)?;
        Some(ExpectedRefusal::Busy(own.broadcast))
    }

    /// A broadcast is open in the process.
    fn open_in(&self, process: u32) -> Option<ExpectedRefusal> {
        let own = self.waiting.iter().find(|own| own.process == process)?;
        Some(ExpectedRefusal::Busy(own.broadcast))
    }

    /// A broadcast is open in the task's process.
    fn open_beside(&self, task: u32) -> Option<ExpectedRefusal> {
        self.open_in(self.process_of(task)?)
    }

    fn overridden(&self, task: u32) -> Option<ExpectedRefusal> {
        let depth = self.depth(task);
        let number = u32::try_from(depth).ok()?;
        unless(depth == 0, ExpectedRefusal::Overridden(number))
    }

    /// The label is no hold, and the task has prepared nothing under it for access(2).
    fn no_override(&self, task: u32, label: u32) -> Option<ExpectedRefusal> {
        let is_for_access = self.label(label).is_some_and(|own| own.task == task
            && own.purpose == Some(Purpose::Access));
        unless(
            is_for_access || self.has(Owner::Hold(label)),
            ExpectedRefusal::NoHold(label),
        )
    }

    fn no_commit(&self, label: u32) -> Option<ExpectedRefusal> {
        match self.label(label) {
            Some(own) if own.purpose == Some(Purpose::Commit) => self
                .no_task(own.task)
                .or(self.busy(own.task))
                .or(self.overridden(own.task))
                .or(self.stale(own.task, label)),
            _ => Some(ExpectedRefusal::NoPrepared(label)),
        }
    }

    /// The task's current credential isn't the label's base any more.
    fn stale(&self, task: u32, label: u32) -> Option<ExpectedRefusal> {
        let base = self.number_of(Owner::Prepared(label))?;
        let now = self.number_of(Owner::Task(task))?;
        unless(now == base, ExpectedRefusal::Stale { base, now })
    }
}
