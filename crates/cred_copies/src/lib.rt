//! Copies of events and answers: read it as part of `cred_event`.
//!
//! `specs/Lists` says which of them hold a list: to copy one of these takes memory.
#![tactic(auto)]

mod answer;
mod event;

pub use answer::copy_answer;
pub use event::copy_event;
