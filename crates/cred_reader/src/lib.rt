//! A report read back: the entry that a line is the text of. The theorem's `only` rests on it; no
//! command calls it.
//!
//! `specs/Fits` says which entries fit a script, and `Kinds`, `Events`, `Answers` and `Entry` what
//! the words of a line are read as. `read` prints what was read and compares it with the line: so
//! it gives an entry exactly where the line is the text of one that fits. Which answers an event
//! may be given is said in `cred_answers`.
#![tactic(auto)]

mod answers;
mod events;
mod fits;
mod kinds;
mod laws;
mod names;
mod reader;
mod refusals;

pub use answers::AnswerForm;
pub use laws::{lists_differ, texts_differ};
pub use names::{EventWord, LabelEvent, TaskEvent};
pub use reader::read;
