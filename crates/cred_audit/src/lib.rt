//! `audit`: whether a text is the report of a script, and where it goes wrong.
//!
//! `specs/Report` says which texts these are, and which entry of another is the first that is
//! wrong. `audit` runs the script, and compares the text of each entry with what the report has in
//! its place; so nothing is read back, and no journal is kept.
#![tactic(auto)]

mod lane;
mod laws;
mod run;
mod verdict;

pub use laws::one_journal;
pub use verdict::{Verdict, audit};
