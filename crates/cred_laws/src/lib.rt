//! Laws of journals: what holds of every journal that a script has, or of every step of a run.
//!
//! Each law is the contract of a function with nothing in its body, over the definitions that the
//! code is proved to follow. So there is nothing to run. The edits in `must-fail/` make a law claim
//! too much; a wrong body stands with the code that keeps the law.
#![tactic(auto)]

pub mod answered;
pub mod broadcast;
pub mod calls;
pub mod confined;
pub mod execve;
pub mod files;
pub mod held;
pub mod journals;
pub mod order;
pub mod overrides;
pub mod permitted;
pub mod raw;
pub mod slots;
pub mod trace;
pub mod valid;
