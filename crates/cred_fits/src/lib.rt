//! Laws: the entries of a script's journals fit it, so that no other list has their text (`only`).
//! Read it as part of `cred_reader`.
//!
//! Each law is the contract of a function with nothing in its body.
#![tactic(auto)]

mod laws;

pub use laws::{
    answers_are_of_their_rows, entries_fit, events_fit, journals_are_short, one_fitting_list,
};
