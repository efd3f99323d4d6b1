//! The lanes of a script as threads: a worker for each lane, and the journal that they make.
//!
//! A worker makes the events of its lane, one after another, until the lane has ended. Each is made
//! under the kernel's lock, which the worker releases after one event, and later, when its lane has
//! had more, after some. But an event that waits for a decision on a credential goes out as a
//! work: the worker releases the lock, decides, and gets the lock again to enter the event. It
//! can't do otherwise: to get the lock it gives its turn, and to decide it needs the turn. Which
//! worker gets the lock next is up to the threads, and no clause says it: in whatever order the
//! events come, the journal is legal for the script.
//!
//! The journal is made in parts. Where one has many entries the workers stop, and the caller can
//! write them and let them go, before the lanes go on in threads of their own again.
//!
//! `drive` and `run_part` may wait for the lock, and what they promise holds if they return.
#![tactic(auto)]

mod run;
mod workers;

pub use cred_kernel::{Gate, NoGate, Place};
pub use run::run_part;
pub use workers::drive;
