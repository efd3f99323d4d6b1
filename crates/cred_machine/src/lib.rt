//! The second body of a step, on which `audit` runs: plain values in lists, and no count of
//! references.
//!
//! Its tasks, open files, holds and prepared labels have the numbers of credentials, and what
//! refers to a number is found by a search through all of them.
#![tactic(auto)]

mod cached;
mod call_events;
mod file_events;
mod label_events;
mod machine;
mod processes;
mod slots;
mod state;
mod task_events;

pub use cached::CachedState;
pub use machine::Machine;
