//! The open files of the system, by their descriptors. Read it as part of `cred_tables`.
//!
//! Each keeps the number of the credential that it was opened by, as `f_cred` of Linux's `struct
//! file` does (Documentation/security/credentials.rst). None is searched for.
#![tactic(auto)]

mod file_description;
pub mod files;

pub use files::Files;
