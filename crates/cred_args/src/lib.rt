//! The words of a command line: a command, and perhaps its operand.
//!
//! `Positionals` says what they are. clap reads them, as one command of two positionals, which
//! `specs/Line` states in clap's terms.
#![tactic(auto)]

mod parsing;

pub use parsing::{Positionals, parse};
