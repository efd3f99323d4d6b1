//! A run of a script whose lanes take turns in any way, of which no journal is kept.
ghost use Rattle.std.specs.Prelude.{◌≡◌, [], IfOk, OnErr, MatchBool};
ghost use Rattle.cred_audit.specs.Run.{GoesOn, RunHasEnded, IsRunAfter, IsLeft, IsRun};

use cred_course::{Cursors, cursor_after, next_event};
use cred_event::Entry;
use cred_ids::NoMemory;
use cred_machine::CachedState;
use cred_script::Script;
use std::alloc::Global;

/// How far a script has run: the state, and the cursors of its lanes.
#[derive(Drop)]
pub struct Run {
    state: CachedState,
    cursors: Cursors,
}

impl Run {
    /// The run before its first event.
    ///
    /// # Errors
    ///
    /// `NoMemory` if an allocation of the state or of the cursors fails.
    pub fn new(alloc: Global, script: &Script) -> Result<Run, NoMemory>
        ensures { IfOk result (λ run. IsRunAfter script.now [] run) }
    {
        let cursors = Cursors::new(alloc, script)?;
        let state = CachedState::new(alloc, script)?;
        Ok(Run { state, cursors })
    }

    /// Makes the next event of a lane, and returns its entry; none where no line of the lane is
    /// left, or where the lane waits for the setup. The script is that of the run.
    ///
    /// # Errors
    ///
    /// `NoMemory` if an allocation of the event or of the state fails: the run is as it was.
    pub fn next(&mut self, script: &Script, lane: u32) -> Result<Option<Entry>, NoMemory>
        requires { IsRun script.now self.old }
        ensures ok { IfOk result (λ found. GoesOn script.now lane self.old self.new found) }
        ensures err { OnErr result (self.new ≡ self.old) }
    {
        let Some(course) = self.cursors.due(lane) else {
            return Ok(None);
        };
        let Some(event) = next_event(script, course)? else {
            return Ok(None);
        };
        let line = course.line();
        let answer = self.state.step(script, line, &event)?;
        let cursor = cursor_after(script, lane, course, &answer);
        self.cursors.move_on(lane, cursor);
        Ok(Some(Entry {
            line,
            event,
            answer,
        }))
    }

    /// Whether no lane has a next event.
    pub fn has_ended(&self) -> bool
        ensures { MatchBool result (RunHasEnded self.now) (IsLeft self.now) }
    {
        self.cursors.has_ended()
    }
}
