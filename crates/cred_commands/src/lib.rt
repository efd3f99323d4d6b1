//! `run` and `gen` over their input and their output: all lines of a script run whole and in order,
//! a line at a time, on one state. No journal is kept.
#![tactic(auto)]

mod line;
mod ordered;
mod straight;
mod summing;
mod written;

pub use ordered::read_and_run;
pub use summing::run_gen;
