//! The grammar of scripts, and the reader that makes a script of bytes, or names its first bad
//! line.
//!
//! What text is a script, and which script it is, is defined in `specs/`: a script is its lines,
//! added one after another to what was read before them. Which words a line has, and what it then
//! declares or holds, is in `IdCalls`, `Changes`, `Questions`, `FileCalls`, `Records` and `Calls`
//! for what a task does, in `Files` for the lines that declare files and for how a word names one,
//! and in `Forms` for all forms. `Reading` says what was read before a line, what that requires of
//! the line and what the line adds to it. `Grammar` puts these together, and `read` answers exactly
//! that; `Adding` names the steps between. `Sound` says what is true of what was read.
//!
//! What is true of each script stands in `cred_script`; which lane has which tasks and labels, and
//! the namespaces, in `cred_names`; how a text is split, what a word spells and the tables of
//! keywords in `cred_spelling`.
#![tactic(auto)]

mod calls;
mod changes;
mod file_calls;
mod file_line;
mod forms;
mod hex_word;
mod id_calls;
mod modes;
mod named;
mod questions;
mod reading;
mod records;
mod refusal;
mod script;
mod uses;

pub use changes::change_of;
pub use cred_spelling::{Reason, line_count};
pub use file_calls::file_call_of;
pub use forms::Parsed;
pub use id_calls::{id_call_of, ids};
pub use modes::AccessMode;
pub use named::file_at;
pub use questions::query_named;
pub use refusal::{LineRefusal, ScriptRefusal};
pub use script::read;
