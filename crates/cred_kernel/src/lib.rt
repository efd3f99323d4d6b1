//! What the threads of all lanes share: one lock, with the book and the rows behind it, and the
//! cells beside it; and a turn for each lane.
//!
//! Under the lock stand the journal, which is one that the script may have so far, and the roll,
//! each of whose rows has its lane's numbers in that journal. Each row is lent to the lane's turn.
//! A step takes the turn's pass back, enters the lane's next event and lends the row again, all
//! under the lock. So whenever the lock is got, the turn has the numbers of its lane: nothing is
//! compared, and there is no answer for a mismatch. Once all turns have ended, the journal is a
//! legal one.
//!
//! Whoever gets the lock gives the turn for it, and has it back when the lock is released. In
//! between several events may be made, one step each, but none that waits for a decision: to decide
//! takes the turn, and sees nothing of the lock.
//!
//! The journal is made in parts. Between two of them the kernel is at rest: no thread shares it,
//! and its entries can be written and let go. The next part knows which entries came before it.
//!
//! `Kernel::lock` may wait for the lock. `decide` waits for nobody but the caller's gate, and
//! nothing else here waits.
#![tactic(auto)]

pub mod cells;
mod decision;
mod gate;
pub mod guard;
mod in_part;
pub mod kernel;
mod locked;
pub mod name;
pub mod parts;
mod passes;
pub mod rest;
pub mod turns;

pub use cells::KernelCells;
pub use decision::decide;
pub use gate::{Gate, NoGate, Place};
pub use guard::KernelGuard;
pub use kernel::Kernel;
pub use name::{Name, Part};
pub use parts::KernelParts;
pub use rest::Rest;
pub use turns::{Turn, TurnList};
