//! The course of one line.
ghost use Rattle.std.specs.Prelude.{◌≡◌, ◌≤◌, ◌<◌, true, IfOk, OnErr, IfSome, is_none, is_some};
ghost use Rattle.cred_ids.specs.Limits.{LINE_LIMIT};
ghost use Rattle.cred_copies.specs.Lists.{EventHoldsList};
ghost use Rattle.cred_model.specs.Course as spec;
ghost use Rattle.cred_model.specs.Course.{Leads, after, event_at, is_bounded, left};

use crate::events::{event_in, makes_events};
use crate::stages::{is_stale, next_stage};
use cred_event::{Answer, Content, Event, Stage};
use cred_ids::{NoMemory, limits};
use std::marker::Model;

/// How far a line has come: its number, from 1 to 20,000; the stage that comes next, or none where
/// it has ended; and which try this is, from 1 to 8. The release with which a next try begins
/// belongs to that one.
#[derive(Clone, Copy, Debug)]
pub struct Course {
    line: u32,
    stage: Option<Stage>,
    tries: u8,
}

impl Model for Course {
    ghost use Rattle.cred_model.specs.Course as spec;
    ghost use Rattle.cred_course.specs.Range.{IsInRange};

    ghost Value = { spec.Course };

    ghost view = { λ c. record { line = c.line; stage = c.stage; tries = c.tries } };

    ghost inverse = { λ c. record { line = c.line; stage = c.stage; tries = c.tries } };

    ghost invariant = { λ c. IsInRange c.line c.tries };
}

impl Course {
    /// The line of this number, with this content, before its first event. A line that makes none
    /// has ended.
    pub fn start(line: u32, content: &Content) -> Course
        requires { line ≤ LINE_LIMIT }
        ensures value { result ≡ spec.start line content.now }
        ensures leads { Leads content.now result }
    {
        let stage = if makes_events(content) {
            Some(Stage::First)
        } else {
            None
        };
        Course {
            line,
            stage,
            tries: 1,
        }
    }

    /// The number of its line.
    pub fn line(&self) -> u32
        ensures value { result ≡ self.now.line }
        ensures few { result ≤ LINE_LIMIT }
    {
        self.line
    }

    /// Whether the line has made its last event.
    pub fn ended(&self) -> bool
        ensures { result ≡ is_none self.now.stage }
    {
        self.stage.is_none()
    }

    /// The next event of its line; none just where the line has ended. The content is the line's.
    ///
    /// # Errors
    ///
    /// `NoMemory` where the list of a `setgroups`, or the bytes of an attribute, could not be
    /// copied; no other event takes memory.
    #[inline(always)]
    pub fn event(&self, content: &Content) -> Result<Option<Event>, NoMemory>
        requires { Leads content.now self.now }
        ensures event { IfOk result (λ event. event ≡ event_at content.now self.now) }
        ensures ended { IfOk result (λ event. is_some event ≡ is_some self.now.stage) }
        ensures refusal { OnErr result (IfSome (event_at content.now self.now) EventHoldsList) }
    {
        self.event_at(content)
    }

    #[inline(always)]
    fn event_at(&self, content: &Content) -> Result<Option<Event>, NoMemory>
        ensures event { IfOk result (λ event. event ≡ event_at content.now self.now) }
        ensures refusal { OnErr result (IfSome (event_at content.now self.now) EventHoldsList) }
    {
        match self.stage {
            Some(stage) => event_in(self.line, content, stage),
            None => Ok(None),
        }
    }

    /// Leads the line on by the answer to its event. The content is the line's. Then it has fewer
    /// events left; nothing is said of an id call, which every thread of the process makes.
    #[inline(always)]
    pub fn advance(&mut self, content: &Content, answer: &Answer)
        requires leads { Leads content.now self.old }
        requires goes_on { is_some self.old.stage ≡ true }
        ensures after { self.new ≡ after content.now self.old answer.now }
        ensures leads { Leads content.now self.new }
        ensures falls { is_bounded content.now ≡ true → left self.new < left self.old }
    {
        *self = self.after(content, answer);
    }

    /// How far the line has come after one more answer.
    #[inline(always)]
    fn after(self, content: &Content, answer: &Answer) -> Course
        ensures { result ≡ after content.now self answer.now }
    {
        if is_stale(self.stage, answer) {
            self.next_try()
        } else {
            let stage = match self.stage {
                Some(stage) => next_stage(content, stage, answer),
                None => None,
            };
            Course { stage, ..self }
        }
    }

    /// The course after a commit that came too late.
    fn next_try(self) -> Course
        ensures { result ≡ spec.next_try self }
    {
        if self.tries < limits::TRIES {
            Course {
                stage: Some(Stage::Retrying),
                tries: self.tries + 1,
                ..self
            }
        } else {
            Course {
                stage: Some(Stage::Releasing),
                ..self
            }
        }
    }
}
