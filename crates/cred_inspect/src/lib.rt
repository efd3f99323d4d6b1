//! `audit`, `decode`, `encode` and `capdata` over their input and their output. Read it as part of
//! `cred_commands`.
//!
//! `audit` compares a report with its script; the others convert one word of the command line.
#![tactic(auto)]

mod auditing;
mod decoding;
mod digits;
mod encoding;
pub mod laws;
mod parts;
mod records;

pub use auditing::read_and_audit;
pub use decoding::run_decode;
pub use encoding::run_encode;
pub use records::run_capdata;
