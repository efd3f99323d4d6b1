//! Capabilities, sets of them, and the securebits (capabilities(7)). No call here takes memory.
#![tactic(auto)]

mod bits;
pub mod cap;
pub mod laws;
pub mod names;
pub mod secure;
pub mod set;

pub use cap::Cap;
pub use names::{cap_name, cap_of_name};
pub use secure::{Flag, LAST_BITS, SecureBits};
pub use set::CapSet;
