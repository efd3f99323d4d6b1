//! The text of a run's report: one line for each entry of the journal.
//!
//! `specs/` defines the text of an entry, case by case. `prepend` adds it to a buffer, and
//! `prepend_all` the text of many entries, so that one buffer serves a whole report; `print` gives
//! the text of one alone.
//!
//! A text is written from its end to its start, by a pen (`Pen`). `specs/Numbers` says how the
//! numbers, ids, sets and words in it are spelled, `Room` how many bytes each takes at most, and
//! `Page` what contracts see of the text.
#![tactic(auto)]

mod answers;
mod calls;
mod entry;
mod events;
mod file_events;
mod forward;
mod numbers;
mod pen;
mod questions;
mod tens;
mod told;
mod words;

pub use entry::{prepend, prepend_all, print};
pub use forward::{append_flag, append_number, append_set, append_word};
pub use pen::Pen;
/// A text, as its bytes.
pub use cred_ids::Bytes as Text;
