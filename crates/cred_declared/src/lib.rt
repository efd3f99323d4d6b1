//! The files of a run as they stand, and what an event sees of its script: the file that it names,
//! the chain and the root of a user namespace.
//!
//! Both bodies of a step use it: `cred_state` and `cred_machine`.
#![tactic(auto)]

mod declared;
mod table;

pub use declared::{
    asked_file, chain_of, declared_files, event_file, executed_file, may_open, root_of,
};
pub use table::FileTable;
