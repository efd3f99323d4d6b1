//! The tables of `cred_machine`: plain lists that are searched, with no count. Read it as part of
//! it.
//!
//! They have credentials by number, tasks, labels, broadcasts, open files, and what refers to what.
#![tactic(auto)]

pub mod broadcasts;
mod creds;
pub mod files;
pub mod labels;
mod one_task;
mod references;
mod tasks;

pub use broadcasts::Broadcast;
pub use creds::{Creds, Numbered};
pub use files::OpenFile;
pub use labels::{Changed, Hold, Prepared};
pub use one_task::{Ending, Task};
pub use references::References;
pub use tasks::Tasks;
