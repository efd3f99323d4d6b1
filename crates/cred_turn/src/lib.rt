//! How far each lane has come, lent to its worker as a pass; and the rule by which a pass that
//! comes back still has its row's numbers. Read it as part of `cred_kernel`.
//!
//! A roll keeps a row of numbers for each lane, and lends each row as a pass. A pass that comes
//! back has the numbers that its row has: nothing is compared when it does.
#![tactic(auto)]

pub mod laws;
pub mod numbers;
pub mod roll;
mod rule;
pub mod view;

pub use numbers::LaneNumbers;
pub use roll::{Pass, Roll};
