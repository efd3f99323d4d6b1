//! Bounds of a credential that no call leads out of: a box has the ids and the sets that a task may
//! have, and where it is tight neither an id call, nor capset(2), prctl(2), nor an execve of a file
//! that leaves in it, gives the task anything else.
//!
//! The laws are those of the rules. What comes of them for the events of a run and for whole
//! journals stands in `cred_laws`.
#![tactic(auto)]

mod laws;

pub use laws::{adjusts_leave_in, execves_leave_in, fs_calls_leave_in, id_calls_leave_in};
