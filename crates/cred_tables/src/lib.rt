//! The tables of holds and of prepared labels, and what changes several tables of the state at
//! once. Read it as part of `cred_state`.
//!
//! It also says where the sealed credentials stand in the shared words.
#![tactic(auto)]

mod broadcasts;
mod ends;
mod flags;
mod holds;
mod labelled;
mod prepared;
mod seal;
mod table;

pub use broadcasts::{begin_in, spawn_in};
pub use ends::{drop_broadcast, end_with};
pub use flags::{exit_in, fork_in, renew_in, start_in};
pub use holds::Holds;
pub use prepared::{Changed, GivenUp, Preparation, Preparing, Ready};
pub use seal::{drop_all, seal_kept, seal_next, sweep_at};
pub use table::{NumberedSlot, sealed_at};
