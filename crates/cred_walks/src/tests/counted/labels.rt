//! What events on holds, open files and prepared labels do to the lists.
use crate::tests::counted::lists::{Lists, Owner, PreparedLabel, Purpose};
use crate::tests::counted::walk::{is_rule, sealed};
use cred_event::{Answer, Change, Event, Side};
use cred_ids::NoMemory;

impl Lists {
    /// Holds and open files.
    pub(crate) fn on_kept(&mut self, event: &Event, answer: &Answer) -> Result<bool, NoMemory> {
        match event {
            Event::Take { label, task, side } => {
                let number = match side {
                    Side::Subjective => self.acts_with(*task),
                    Side::Objective => self.number_of(Owner::Task(*task)),
                };
                self.holds(*label, number, answer)
            }
            Event::TakeFile { label, fd } => {
                let number = self.number_of(Owner::File(*fd));
                self.holds(*label, number, answer)
            }
            Event::Release { label } => Ok(self.drops(Owner::Hold(*label), answer)),
            Event::CloseFile { fd } => Ok(self.drops(Owner::File(*fd), answer)),
            Event::OpenFile { hold, fd, .. } => self.opens(*hold, *fd, answer),
            _ => self.on_prepared(event, answer),
        }
    }

    /// A label takes hold of a number.
    fn holds(
        &mut self,
        label: u32,
        number: Option<u64>,
        answer: &Answer,
    ) -> Result<bool, NoMemory> {
        let Some((cred, slot)) = sealed(answer) else {
            return Ok(false);
        };
        self.refers(Owner::Hold(label), cred)?;
        Ok(number == Some(cred) && self.was_sealed_in(cred, slot))
    }

    fn drops(&mut self, owner: Owner, answer: &Answer) -> bool {
        self.gives_up(owner);
        matches!(answer, Answer::Done)
    }

    fn opens(&mut self, hold: u32, fd: u32, answer: &Answer) -> Result<bool, NoMemory> {
        if is_rule(answer) {
            return Ok(true);
        }
        let Some(number) = self.number_of(Owner::Hold(hold)) else {
            return Ok(false);
        };
        self.refers(Owner::File(fd), number)?;
        Ok(matches!(answer, Answer::Done))
    }

    /// Prepared labels.
    fn on_prepared(&mut self, event: &Event, answer: &Answer) -> Result<bool, NoMemory> {
        match event {
            Event::Prepare { label, task, hold } => match answer {
                Answer::Kept { slot } => self.prepares(*label, *task, *hold, *slot),
                _ => self.is_full(answer),
            },
            Event::Alter { label, change } => Ok(self.alters(*label, *change, answer)),
            Event::Commit { label } => self.commits(*label, answer),
            Event::Abort { label } => {
                self.drop_label(*label);
                Ok(matches!(answer, Answer::Done))
            }
            _ => Ok(false),
        }
    }

    fn prepares(&mut self, label: u32, task: u32, hold: u32, slot: u32) -> Result<bool, NoMemory> {
        let is_least = self.claimed()? == Some(slot);
        let Some(base) = self.number_of(Owner::Hold(hold)) else {
            return Ok(false);
        };
        self.refers(Owner::Prepared(label), base)?;
        self.prepared.push(PreparedLabel {
            label,
            task,
            slot,
            purpose: None,
        })?;
        Ok(is_least)
    }

    fn alters(&mut self, label: u32, change: Change, answer: &Answer) -> bool {
        if !matches!(answer, Answer::Done | Answer::Was { .. }) {
            return is_rule(answer);
        }
        let purpose = match change {
            Change::Access => Purpose::Access,
            _ => Purpose::Commit,
        };
        for own in self.prepared.iter_mut() {
            if own.label == label {
                own.purpose = Some(purpose);
            }
        }
        true
    }

    fn commits(&mut self, label: u32, answer: &Answer) -> Result<bool, NoMemory> {
        let Some(own) = self.label(label) else {
            return Ok(false);
        };
        match answer {
            Answer::Sealed { cred, slot } => self.commits_in(own, *cred, *slot),
            Answer::Executed {
                cred,
                slot,
                ended,
                ..
            } => Ok(
                self.executes(own.task)? == u64::from(*ended)
                    && self.commits_in(own, *cred, *slot)?,
            ),
            _ => Ok(false),
        }
    }

    fn commits_in(&mut self, own: PreparedLabel, cred: u64, slot: u32) -> Result<bool, NoMemory> {
        let is_next = self.seals(cred, slot)?;
        self.replace(own.task, cred)?;
        self.drop_label(own.label);
        Ok(is_next && own.slot == slot)
    }

    /// An execve drops the broadcast of the process, and ends all its other threads. Answers how
    /// many.
    fn executes(&mut self, task: u32) -> Result<u64, NoMemory> {
        let others = self.others(task)?;
        self.drop_broadcast(task);
        for other in &others {
            self.end(*other);
        }
        Ok(others.len() as u64)
    }
}
