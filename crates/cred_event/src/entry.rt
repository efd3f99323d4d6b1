//! An entry of the journal.
use crate::answer::Answer;
use crate::event::Event;
use std::mem::forget;

/// One event with its answer, and the number of the line that made it, from 1.
pub struct Entry {
    pub line: u32,
    pub event: Event,
    pub answer: Answer,
}

impl Drop for Entry {
    /// Most events have no memory of their own: these are forgotten, and only their kind is tested.
    #[inline(always)]
    fn drop(self) {
        let Entry {
            line: _,
            event,
            answer,
        } = self;
        match event {
            Event::Begin { .. } | Event::Raw { .. } | Event::SetAttr { .. } => drop(event),
            _ => forget(event),
        }
        drop(answer)
    }
}
