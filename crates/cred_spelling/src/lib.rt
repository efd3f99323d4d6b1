//! The words of scripts and of entries: how a text is split into lines and words, what a word
//! spells, and which words name something.
//!
//! `Lines` and `Words` split a text. `Spellings` says what one word may be, `Names` has the tables
//! of keywords, and the trait `Spelling` gives each kind of word its spelling, so that a form's
//! words are read by naming their kinds.
#![tactic(auto)]

mod bytes;
mod file_name;
mod kinds;
mod line_words;
mod lines;
mod long;
mod names;
mod reason;
mod spellings;
mod table;
mod words;

pub use bytes::bytes_of;
pub use file_name::name_of;
pub use kinds::{
    Descriptor, LaneNumber, LineNumber, NewNamespace, Number, Parent, SpelledCap, SpelledLabel,
    SpelledNamespace, SpelledProcess, SpelledTask, Spelling,
};
pub use line_words::split_first_line;
pub use lines::{first_line, line_count};
pub use long::long_of;
pub use names::{
    CallName, ChangeName, EventName, FileCallName, Form, IdName, OtherName, QueryName,
    altered_name, call_name, change_name, form_of, id_name, query_name,
};
pub use reason::Reason;
pub use spellings::{is, mode_of};
pub use table::named;
pub use words::{bare, five, is_comment, no_words, one, split_into, three, two, word};
