//! Which processes are dumpable (prctl(2), PR_SET_DUMPABLE), and what ends that.
//!
//! Both bodies of a step use it: `cred_state` and `cred_machine`.
#![tactic(auto)]

mod changes;
mod flags;

pub use changes::{differs, differs_by, is_gain};
pub use flags::{DumpableFlags, flag_of_value};
