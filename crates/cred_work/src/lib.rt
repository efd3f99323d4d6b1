//! Decisions on credentials that are lent, and works: events that are decided outside of the lock.
//!
//! A decision is what a question is answered, whether a task may signal another, what a change
//! makes. Whoever has the tokens decides, at whatever moments other tokens read and put, and waits
//! for nobody.
//!
//! A work is an event that waits for a decision on lent credentials, with all that the decision
//! needs, so that it can be made where no lock is held. A caller may stop it once the words have
//! been read.
#![tactic(auto)]

mod changes;
mod made;
mod pause;
mod pending;
mod performing;
mod questions;
mod signals;
mod work;

pub use changes::alter;
pub use made::{BoxedMade, unbox};
pub use pause::{NoPause, Pause};
pub use pending::Pending;
pub use performing::perform;
pub use questions::{decide, may_open};
pub use signals::decide_signal;
pub use work::{Request, Work};
