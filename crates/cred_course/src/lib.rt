//! The courses of lines: which events a line makes, one after another, each chosen by the answers
//! so far. And how far a run has come: a cursor for each lane, the course of its first line that
//! has not ended. Each lane runs its lines in order, each to its end; between two events of a line
//! those of other lanes may come.
//!
//! What a course is, is defined in `cred_model`. `specs/Cursor` says which cursor of a lane is that
//! of a journal, `specs/LaneCursors` which lane waits for the setup. The functions of a cursor are
//! the three steps of a lane: its start, its next event, and what an answer leads to. They keep
//! neither state nor journal.
//!
//! `specs/Waiting` and `proofs/Measure` say how many steps a run may have left, at most. Fewer are
//! left after each event that is entered, also where tasks begin to wait by it. So the book's
//! lanes, a run in order and the laws of what fits a script have an end.
#![tactic(auto)]

mod course;
mod cursor;
mod events;
mod lane_cursors;
mod stages;

pub use course::Course;
pub use cursor::{cursor_after, first_cursor, next_event};
pub use events::{hold_label, new_label};
pub use lane_cursors::Cursors;
pub use stages::some_wait;
