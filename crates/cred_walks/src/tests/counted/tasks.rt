//! What events on tasks and their broadcasts do to the lists.
use crate::tests::counted::lists::{Lists, LiveTask, Owner, Waiting};
use crate::tests::counted::walk::{is_rule, sealed};
use cred_event::{AbortCause, Answer, Event};
use cred_ids::NoMemory;

impl Lists {
    /// The events that seal a credential in a new slot.
    pub(crate) fn on_new(
        &mut self,
        event: &Event,
        line: u32,
        answer: &Answer,
    ) -> Result<bool, NoMemory> {
        match event {
            Event::Init { task, process, .. } => self.inits(*task, *process, answer),
            Event::Begin { task, .. } => Ok(is_rule(answer) || self.begins(line, *task, answer)?),
            Event::Raw { task, .. } => Ok(is_rule(answer) || self.acts_alone(*task, answer)?),
            Event::Act { broadcast } => self.acts(*broadcast, answer),
            _ => self.on_tasks(event, answer),
        }
    }

    fn start(&mut self, number: u32, process: u32, cred: u64) -> Result<(), NoMemory> {
        self.tasks.push(LiveTask { number, process })?;
        self.refers(Owner::Task(number), cred)
    }

    fn inits(&mut self, task: u32, process: u32, answer: &Answer) -> Result<bool, NoMemory> {
        let Some((cred, slot)) = sealed(answer) else {
            return self.is_full(answer);
        };
        let is_new = self.is_new(cred, slot)?;
        self.start(task, process, cred)?;
        Ok(is_new)
    }

    /// No slot is free, and this is the answer.
    pub(crate) fn is_full(&mut self, answer: &Answer) -> Result<bool, NoMemory> {
        Ok(matches!(answer, Answer::TableFull) && self.claimed()?.is_none())
    }

    /// A credential is sealed in the least slot that is free.
    fn is_new(&mut self, cred: u64, slot: u32) -> Result<bool, NoMemory> {
        let is_least = self.claimed()? == Some(slot);
        Ok(self.seals(cred, slot)? && is_least)
    }

    /// All other threads of the caller's process wait from now on.
    fn begins(&mut self, broadcast: u32, caller: u32, answer: &Answer) -> Result<bool, NoMemory> {
        let Answer::Began { cred, slot, left } = answer else {
            return self.is_full(answer);
        };
        let is_new = self.is_new(*cred, *slot)?;
        self.replace(caller, *cred)?;
        let others = self.others(caller)?;
        let process = self.process_of(caller).unwrap_or(0);
        for task in &others {
            self.waiting.push(Waiting {
                broadcast,
                process,
                caller,
                task: *task,
            })?;
        }
        Ok(is_new && others.len() as u64 == u64::from(*left))
    }

    /// One thread has a new credential, and no other waits.
    fn acts_alone(&mut self, task: u32, answer: &Answer) -> Result<bool, NoMemory> {
        let Some((cred, slot)) = sealed(answer) else {
            return self.is_full(answer);
        };
        let is_new = self.is_new(cred, slot)?;
        self.replace(task, cred)?;
        Ok(is_new)
    }

    /// The least task that waits in a broadcast.
    fn least(&self, broadcast: u32) -> Option<u32> {
        let waiting = self.waiting.iter().filter(|own| own.broadcast == broadcast);
        waiting.map(|own| own.task).min()
    }

    /// The least thread that waits has a new credential and waits no longer, or can't follow.
    fn acts(&mut self, broadcast: u32, answer: &Answer) -> Result<bool, NoMemory> {
        match answer {
            Answer::Acted {
                task,
                cred,
                slot,
                left,
            } => {
                let is_least = self.least(broadcast) == Some(*task);
                let is_new = self.is_new(*cred, *slot)?;
                self.replace(*task, *cred)?;
                self.waiting.retain(|own| own.task != *task);
                let others = self
                    .waiting
                    .iter()
                    .filter(|own| own.broadcast == broadcast)
                    .count();
                Ok(is_least && is_new && others as u64 == u64::from(*left))
            }
            Answer::Aborted { task, cause } => {
                let is_least = self.least(broadcast) == Some(*task);
                Ok(self.aborts(*task, *cause)? && is_least)
            }
            _ => Ok(false),
        }
    }

    /// A thread can't follow: the broadcast is dropped, and all threads of its process end.
    fn aborts(&mut self, task: u32, cause: AbortCause) -> Result<bool, NoMemory> {
        let is_due = match cause {
            AbortCause::Perm => true,
            AbortCause::Full => self.claimed()?.is_none(),
        };
        let others = self.others(task)?;
        self.drop_broadcast(task);
        for other in &others {
            self.end(*other);
        }
        self.end(task);
        Ok(is_due)
    }

    /// Overrides, threads that begin and end, and the sweep.
    fn on_tasks(&mut self, event: &Event, answer: &Answer) -> Result<bool, NoMemory> {
        match event {
            Event::Override { task, label } => self.lends(*task, *label, answer),
            Event::Spawn { task, child } => {
                self.joins(*task, *child)?;
                let process = self.process_of(*task);
                self.shares(*task, *child, process, answer)
            }
            Event::Fork {
                task,
                child,
                process,
            } => self.shares(*task, *child, Some(*process), answer),
            _ => Ok(self.on_ends(event) && matches!(answer, Answer::Done)),
        }
    }

    /// What is answered by no number.
    fn on_ends(&mut self, event: &Event) -> bool {
        match event {
            Event::Revert { task } => {
                let depth = self.depth(*task);
                self.gives_up(Owner::Override { task: *task, depth });
                true
            }
            Event::Exit { task } => {
                self.end(*task);
                true
            }
            Event::Sweep => {
                self.sweep();
                true
            }
            _ => false,
        }
    }

    /// The task acts with what the label holds, or has prepared for access(2).
    fn lends(&mut self, task: u32, label: u32, answer: &Answer) -> Result<bool, NoMemory> {
        let Some((cred, slot)) = sealed(answer) else {
            return Ok(false);
        };
        let fits = match self.number_of(Owner::Hold(label)) {
            Some(number) => number == cred && self.was_sealed_in(cred, slot),
            None => self.seals_for_access(label, cred, slot)?,
        };
        let depth = self.depth(task).saturating_add(1);
        self.refers(Owner::Override { task, depth }, cred)?;
        Ok(fits)
    }

    /// What was prepared for access(2) is sealed in the slot that was kept for it.
    fn seals_for_access(&mut self, label: u32, cred: u64, slot: u32) -> Result<bool, NoMemory> {
        let is_kept = self.label(label).is_some_and(|own| own.slot == slot);
        self.drop_label(label);
        Ok(self.seals(cred, slot)? && is_kept)
    }

    /// A child waits where its creator waits.
    fn joins(&mut self, task: u32, child: u32) -> Result<(), NoMemory> {
        let found = self.waiting.iter().find(|own| own.task == task).copied();
        if let Some(own) = found {
            self.waiting.push(Waiting { task: child, ..own })?;
        }
        Ok(())
    }

    /// A child shares its creator's current credential.
    fn shares(
        &mut self,
        task: u32,
        child: u32,
        process: Option<u32>,
        answer: &Answer,
    ) -> Result<bool, NoMemory> {
        let (Some((cred, slot)), Some(process)) = (sealed(answer), process) else {
            return Ok(false);
        };
        let is_own = self.number_of(Owner::Task(task)) == Some(cred);
        self.start(child, process, cred)?;
        Ok(is_own && self.was_sealed_in(cred, slot))
    }
}
