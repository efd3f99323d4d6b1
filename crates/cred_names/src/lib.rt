//! What a script has named: its user namespaces, and which lane has which tasks and labels. Read it
//! as part of `cred_script`.
//!
//! `specs/` says in `Namespaces` which root ids a declared namespace has, in `Labels` which labels
//! a line names, and in `Owners` which lane has which tasks and labels, and what a line may name
//! then.
#![tactic(auto)]

mod labels;
mod lanes;
mod namespaces;

pub use lanes::Lanes;
pub use namespaces::Namespaces;
