//! A script: the files and the user namespaces that it declares, and its lines, each with its lane
//! and what it holds.
//!
//! `specs/` says in `Sound` what is true of each script, in `Lines` which line has a number, in
//! `Acting` which task acts by a line, in `Lanes` which lane is the greatest, in `Files` which file
//! has a name, and in `Kept` how the files are kept. `cred_grammar`, which reads scripts, defines
//! which texts they are.
#![tactic(auto)]

mod actor;
mod files;
mod script;

pub use actor::event_actor;
pub use files::{DeclaredFiles, ScriptFile};
pub use script::{Script, ScriptLine};
