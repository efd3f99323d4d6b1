//! setuid(2), setresuid(2), setgroups(2) and the other calls that set ids, and what they do to the
//! capability sets.
#![tactic(auto)]

mod calls;
mod fix;
mod fs;
mod ids;
pub mod laws;
pub mod parts;

pub use calls::{apply_parts, apply_to};
pub use fs::setfs;
pub use parts::IdParts;
