//! The tasks and the processes that live, with each task's current credential and overrides.
//!
//! Tasks are found by their numbers, and the threads of a process by its own: neither is searched
//! for.
#![tactic(auto)]

pub mod lists;
mod processes;
pub mod procs;
mod thread;

pub use lists::{CredNumbers, TaskList};
pub use procs::{Ended, Procs};
