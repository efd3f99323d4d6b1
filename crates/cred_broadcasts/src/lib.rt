//! The open broadcasts: the id call that every thread of a process makes (nptl(7)), and who still
//! has to.
#![tactic(auto)]

pub mod broadcasts;
mod one_broadcast;

pub use broadcasts::Broadcasts;
pub use one_broadcast::LastStep;
