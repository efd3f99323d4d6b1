//! The book: the journal of a run, with the state that it leads to.
#![tactic(auto)]

mod beginning;
mod book;
mod earlier;
mod ended;
mod journal;
mod outs;
mod step;

pub use book::Book;
pub use journal::{LastPart, PART};
pub use step::{Step, Unfinished};
