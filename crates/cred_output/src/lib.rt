//! How a command reads its script, what it writes in place of a report, and how it ends: statuses,
//! what a failed read or write leaves. Read it as part of `cred_commands`.
//!
//! `specs/Ends` and `Leaves` say what a command that runs a script leaves by each status, `Scripts`
//! what it has read, `Cuts` what is written of a journal where a write fails, `Telling` and `Texts`
//! what is written in place of a report, and `Statuses` the exit status of each way in which the
//! program ends.
#![tactic(auto)]

mod input;
mod message;
mod refusing;
mod report;
mod status;

pub use input::read_script;
pub use message::{Message, write_message, write_short_text};
pub use refusing::bad_line;
pub use report::{write_entries, write_last};
pub use status::{Status, finish};
