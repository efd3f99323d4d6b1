//! Which answers an event may be given, whatever the state. Read it as part of `cred_reader`.
//!
//! `specs/Rows` says it of each event, and `CallRows` of an id call and of a change of sets or
//! securebits, by their arguments.
#![tactic(auto)]

mod call_rows;
mod file_rows;
mod rows;
mod told_rows;

pub use rows::can_answer;
