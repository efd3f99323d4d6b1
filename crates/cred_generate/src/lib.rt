//! `gen`: a script that is made from a number, and the summary of a journal.
//!
//! `Generated` says what lines such a script has, and `Summary` what is counted.
#![tactic(auto)]

mod generating;
mod sealing;
mod summing;

pub use generating::{CALLS, generate};
pub use summing::Summary;
