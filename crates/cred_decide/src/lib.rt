//! What is decided on one credential: the answer to a question, and what a change makes of it.
//!
//! A decision sees the credential and the file that it names, and no task, label or slot.
#![tactic(auto)]

mod changes;
mod refusals;
mod replies;

pub use changes::{Made, change, committed_by};
pub use refusals::refusal_answer;
pub use replies::reply;
