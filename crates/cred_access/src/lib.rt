//! What a task may do to a file and to another task (path_resolution(7), access(2), kill(2),
//! ptrace(2), capabilities(7)).
#![tactic(auto)]

mod class;
mod file;
mod mode;
mod real;
mod rights;
mod trace;

pub use class::has_group;
pub use file::{may, may_by};
pub use mode::{EXECUTE, GROUP_EXECUTE, SET_GROUP, SET_USER, has_any};
pub use real::access_cred;
pub use rights::{capable, may_signal, may_signal_by};
pub use trace::{Seen, may_trace, may_trace_by};
