//! The cursor: the course of the first line that has not ended.
ghost use Rattle.std.specs.Prelude.{◌≡◌, ◌≤◌, true, [], length, IfOk, IfSome, OnErr, is_some};
ghost use Rattle.std.specs.Option.{option_and_then};
ghost use Rattle.cred_ids.specs.Limits.{LINE_LIMIT};
ghost use Rattle.cred_copies.specs.Lists.{EventHoldsList};
ghost use Rattle.cred_model.specs.Course as model;
ghost use Rattle.cred_model.specs.Named.{IsEventOf};
ghost use Rattle.cred_script.specs.Lines.{line_at};
ghost use Rattle.cred_course.specs.Cursor.{IsLaneCursor, IsOfLine, MovesOnFrom, MovesOnTo};

use crate::course::Course;
use cred_event::{Answer, Event};
use cred_ids::NoMemory;
use cred_script::Script;

/// The cursor of a lane before the first event. Lane 0 is the setup.
pub fn first_cursor(script: &Script, lane: u32) -> Option<Course>
    ensures { IsLaneCursor script.now [] lane result }
{
    first_after(script, lane, 0)
}

/// The next event of the course's line. It names only declared files and namespaces, and gives only
/// valid modes, as its line does. `None` where the line has ended.
///
/// # Errors
///
/// `NoMemory` where the list of a `setgroups`, or the bytes of an attribute, could not be copied;
/// no other event takes memory.
// Called for each event of a lane, from one place of it.
#[inline(always)]
pub fn next_event(script: &Script, course: Course) -> Result<Option<Event>, NoMemory>
    requires line { IsOfLine script.now course }
    ensures event { IfOk result (λ event. event
        ≡ option_and_then (λ line. model.event_at line.content course)
        (line_at script.now course.line)) }
    ensures named { IfOk result (λ event.
        IfSome event (IsEventOf (length script.now.files) script.now.namespaces)) }
    ensures refusal { OnErr result (IfSome (option_and_then
        (λ line. model.event_at line.content course)
        (line_at script.now course.line)) EventHoldsList) }
{
    match script.line(course.line()) {
        Some((_, content)) => course.event(content),
        None => Ok(None),
    }
}

/// The cursor of the lane after an answer to the course's line, which is one of the lane.
// Called for each event of a lane: the line that was found for the event is known then.
#[inline(always)]
pub fn cursor_after(script: &Script, lane: u32, course: Course, answer: &Answer) -> Option<Course>
    requires line { IsOfLine script.now course }
    requires going { is_some course.stage ≡ true }
    ensures { IfSome (line_at script.now course.line) (λ line.
        MovesOnTo script.now lane (model.after line.content course answer.now) result) }
{
    let (_, content) = script.line(course.line())?;
    let mut course = course;
    course.advance(content, answer);
    first_left(script, lane, course)
}

/// The cursor of the lane from a course on: that course, or, where its line has ended, that of the
/// lane's first later line that has not.
#[inline(always)]
fn first_left(script: &Script, lane: u32, course: Course) -> Option<Course>
    ensures { MovesOnTo script.now lane course result }
{
    if course.ended() {
        first_after(script, lane, course.line())
    } else {
        Some(course)
    }
}

/// The cursor of the lane, where its lines up to this number have ended and no later one has begun:
/// the course of its first later line that makes events.
// Called for each line.
#[inline(never)]
fn first_after(script: &Script, lane: u32, line: u32) -> Option<Course>
    requires { line ≤ LINE_LIMIT }
    ensures { MovesOnFrom script.now lane line result }
{
    let mut number = line;
    'lines: loop {
        number += 1;
        let (own, content) = script.line(number)?;
        if own == lane {
            let course = Course::start(number, content);
            if !course.ended() {
                return Some(course);
            }
        }
    }
}
