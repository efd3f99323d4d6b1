//! `lanes` over its input and its output. Read it as part of `cred_commands`.
//!
//! It reads a script, runs its lanes as threads, and writes the report of their journal in parts:
//! between two of them no lane runs.
#![tactic(auto)]

mod report;
mod runs;

pub use cred_lanes::{Gate, NoGate};
pub use runs::read_and_lanes;
