//! The cursors of a script's lanes.
ghost use Rattle.std.specs.Prelude.{◌≡◌, ◌+◌, ◌<◌, ◌≤◌, [], length, set};
ghost use Rattle.std.specs.Prelude.{IfOk, MatchOption, is_none};
ghost use Rattle.std.specs.List.{list_all};
ghost use Rattle.cred_ids.specs.Limits.{LINE_LIMIT};
ghost use Rattle.cred_ids.specs.Limits.{LAST_LANE};
ghost use Rattle.cred_course.specs.LaneCursors.{AreCursors, AreOver, IsEarlier, IsLeast, cursor_of};
ghost use Rattle.cred_course.specs.LaneCursors.{due_of};

use crate::course::Course;
use crate::cursor::first_cursor;
use cred_ids::NoMemory;
use cred_script::Script;
use std::alloc::Global;
use std::marker::Model;

/// For each lane of a script, from 0 to the last, the course of its first line that has not ended,
/// if there is one. Lane 0 is the setup, for which all other lanes wait.
#[derive(Drop, Debug)]
pub struct Cursors {
    cursors: Vec<Option<Course>>,
}

impl Model for Cursors {
    ghost use Rattle.std.specs.Prelude.{List, length, ◌+◌, ◌≤◌};
    ghost use Rattle.std.specs.declared.option.Option.{Option};
    ghost use Rattle.cred_ids.specs.Limits.{LAST_LANE};
    ghost use Rattle.cred_model.specs.Course.{Course};

    ghost Value = { List (Option Course) };

    ghost view = { λ c. c.cursors.items };

    ghost invariant = { λ c. length c.cursors.items ≤ LAST_LANE + 1 };
}

impl Cursors {
    /// The cursors of a script before its first event.
    ///
    /// # Errors
    ///
    /// `NoMemory` if their list could not be allocated.
    pub fn new(alloc: Global, script: &Script) -> Result<Cursors, NoMemory>
        ensures cursors { IfOk result (λ cursors. AreCursors script.now [] cursors) }
        ensures lines { length script.now.lines ≤ LINE_LIMIT }
    {
        let mut cursors = Vec::new(alloc);
        'lanes: for lane in 0..script.lanes() + 1 {
            cursors.push(first_cursor(script, lane))?;
        }
        Ok(Cursors { cursors })
    }

    /// The course that makes the lane's next event; none where no line of the lane is left, or
    /// where the lane waits for the setup.
    pub fn due(&self, lane: u32) -> Option<Course>
        ensures { result ≡ due_of self.now lane }
    {
        if lane != 0 && cursor_of(&self.cursors, 0).is_some() {
            return None;
        }
        cursor_of(&self.cursors, lane)
    }

    /// Moves the lane on to this cursor.
    pub fn move_on(&mut self, lane: u32, cursor: Option<Course>)
        requires { lane < length self.old }
        ensures { self.new ≡ set self.old lane cursor }
    {
        self.cursors[lane as usize] = cursor;
    }

    /// Whether no lane has a line left.
    pub fn has_ended(&self) -> bool
        ensures { result ≡ list_all is_none self.now }
    {
        self.cursors.iter().all(|cursor| cursor.is_none())
    }

    /// The lane of the least line that is left; none where none is.
    pub fn least(&self) -> Option<u32>
        ensures { MatchOption result (AreOver self.now) (IsLeast self.now) }
    {
        least_of(&self.cursors)
    }
}

/// The lane of the least line on which a cursor stands; none where no lane has a cursor.
fn least_of(cursors: &[Option<Course>]) -> Option<u32>
    requires { length cursors.now ≤ LAST_LANE + 1 }
    ensures { MatchOption result (AreOver cursors.now) (IsLeast cursors.now) }
{
    let mut least = 0;
    'lanes: for lane in 1..cursors.len() as u32 {
        least = earlier(cursors, least, lane);
    }
    let _course = cursor_of(cursors, least)?;
    Some(least)
}

/// Of two lanes the one that has the earlier line left; the first where neither has one.
fn earlier(cursors: &[Option<Course>], one: u32, other: u32) -> u32
    ensures { IsEarlier cursors.now one other result }
{
    let Some(second) = cursor_of(cursors, other) else {
        return one;
    };
    let Some(first) = cursor_of(cursors, one) else {
        return other;
    };
    if first.line() <= second.line() {
        one
    } else {
        other
    }
}

/// The lane's cursor; none past the last lane.
fn cursor_of(cursors: &[Option<Course>], lane: u32) -> Option<Course>
    ensures { result ≡ cursor_of cursors.now lane }
{
    *cursors.get(lane as usize)?
}
