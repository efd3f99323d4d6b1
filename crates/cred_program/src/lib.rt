//! The command line, and `credtrace`, the top call, whose contract is the theorem.
#![tactic(auto)]

mod process;
mod program;
mod words;

pub use cred_output::Status;
pub use cred_runs::NoGate;
pub use process::exit_code;
pub use program::credtrace;
