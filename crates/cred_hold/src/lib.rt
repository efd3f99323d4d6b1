//! Credentials in the shared words: lent as holds, which read, and as writers, which put; and their
//! master, which lends them.
#![tactic(auto)]

mod like;
pub mod master;
mod parts;
pub mod tokens;
mod words;

pub use cred_words::Cells;
pub use master::{Master, make};
pub use tokens::{HoldToken, Writer, discard, put, read, read_caps, read_groups, read_ids};
