//! What execve(2) makes of the credential of a task, and what that gains (capabilities(7),
//! "Transformation of capabilities during execve()").
#![tactic(auto)]

mod after;
mod attribute;
mod calls;
mod gained;
mod ids;
pub mod laws;
pub mod refusal;
mod root;
mod sets;

pub use calls::exec;
pub use refusal::ExecRefusal;
