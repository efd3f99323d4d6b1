//! The text of a file's capabilities, as setcap(8) takes it and getcap(8) writes it
//! (cap_text_formats(7)): read and written.
//!
//! `specs/Grammar` has the texts, `specs/Meaning` what they say, and `specs/Reading` what is read.
#![tactic(auto)]

mod action;
mod bytes;
pub mod laws;
mod prefix;
mod printing;
mod reading;
pub mod refusal;
mod sets;

pub use cred_ids::Bytes as Text;
pub use printing::print_text;
pub use reading::read_text;
pub use refusal::TextRefusal;
