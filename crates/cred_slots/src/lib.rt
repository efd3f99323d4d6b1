//! Counted slots for sealed credentials. Sealed credentials have the numbers 0, 1, 2, .., and each
//! stands in a slot. The references to a number are counted, and never searched for.
#![tactic(auto)]

mod flags;
mod row;
pub mod slots;
pub mod stack;

pub use slots::Slots;
pub use stack::Stack;
