//! The calls that change the capability sets, the securebits and no_new_privs of a task: capset(2)
//! and the options of prctl(2).
#![tactic(auto)]

mod ambient;
mod bits;
mod bounding;
mod calls;
mod capset;

pub use ambient::amb_is_set;
pub use bounding::bset_read;
pub use calls::apply;
