//! The events of a run, their answers and the entries of its journal, and what a script's line
//! holds: plain data alone.
//!
//! What an event does and answers is defined in `cred_model`; `specs/Answers` says which answers
//! are refusals.
#![tactic(auto)]

mod answer;
mod content;
mod entry;
mod event;

pub use answer::{AbortCause, Answer, Counted, Named, Told};
pub use content::{Content, FileCall, Stage};
pub use entry::Entry;
pub use event::{Change, Event, Query, Side};
