//! The state of a run, and a call for each event: `State::begin`, `State::commit` and the others.
//!
//! The tasks, the open broadcasts, the open files, the holds and the prepared labels are in a table
//! each, and the credentials in slots, with a table of those that counts the references to them.
#![tactic(auto)]

pub mod state;

pub use state::State;
