//! What each entry of a journal does to the lists.
use crate::tests::counted::lists::Lists;
use crate::tests::counted::refusals::ExpectedRefusal;
use cred_event::{Answer, Entry, Event};
use cred_ids::NoMemory;

/// The answer is a refusal by a rule on credentials.
pub(crate) fn is_rule(answer: &Answer) -> bool {
    matches!(answer, Answer::Eperm | Answer::Einval | Answer::Eacces)
}

/// The number and the slot of the credential, where the answer has nothing else.
pub(crate) fn sealed(answer: &Answer) -> Option<(u64, u32)> {
    match answer {
        Answer::Sealed { cred, slot } => Some((*cred, *slot)),
        _ => None,
    }
}

/// The two are one answer.
fn are_one(due: ExpectedRefusal, answer: &Answer) -> bool {
    match (due, answer) {
        (ExpectedRefusal::Ebadf, Answer::Ebadf)
        | (ExpectedRefusal::NotOverridden, Answer::NotOverridden)
        | (ExpectedRefusal::TooDeep, Answer::TooDeep) => true,
        (ExpectedRefusal::NoTask(due), Answer::NoTask(number))
        | (ExpectedRefusal::NoHold(due), Answer::NoHold(number))
        | (ExpectedRefusal::NoPrepared(due), Answer::NoPrepared(number))
        | (ExpectedRefusal::NoBroadcast(due), Answer::NoBroadcast(number))
        | (ExpectedRefusal::Busy(due), Answer::Busy(number))
        | (ExpectedRefusal::Overridden(due), Answer::Overridden(number)) => due == *number,
        (ExpectedRefusal::Exists { what, number }, Answer::Exists { what: w, number: n }) => {
            what == *w && number == *n
        }
        (ExpectedRefusal::Stale { base, now }, Answer::Stale { base: b, now: n }) => base == *b
            && now == *n,
        _ => false,
    }
}

impl Lists {
    /// Makes an entry's event as it was answered. Says whether the answer is the one that is due:
    /// of refusals the very one, of the rest the numbers in it. What the rules on credentials say
    /// is taken from the answer.
    pub(crate) fn follows(&mut self, entry: &Entry) -> Result<bool, NoMemory> {
        let Some(due) = self.refusal(entry.line, &entry.event) else {
            return self.made(&entry.event, entry.line, &entry.answer);
        };
        // A commit that comes too late gives up its label.
        if let (ExpectedRefusal::Stale { .. }, Event::Commit { label }) = (due, &entry.event) {
            self.drop_label(*label);
        }
        Ok(are_one(due, &entry.answer))
    }

    /// Makes an event that the lists don't refuse.
    fn made(&mut self, event: &Event, line: u32, answer: &Answer) -> Result<bool, NoMemory> {
        match event {
            Event::Ask { .. }
            | Event::Signal { .. }
            | Event::Chown { .. }
            | Event::Chmod { .. }
            | Event::SetAttr { .. }
            | Event::Stat { .. } => {
                Ok(is_rule(answer) || matches!(answer, Answer::Done | Answer::Told(_)))
            }
            Event::Take { .. }
            | Event::TakeFile { .. }
            | Event::Release { .. }
            | Event::OpenFile { .. }
            | Event::CloseFile { .. }
            | Event::Prepare { .. }
            | Event::Alter { .. }
            | Event::Commit { .. }
            | Event::Abort { .. } => self.on_kept(event, answer),
            _ => self.on_new(event, line, answer),
        }
    }
}
