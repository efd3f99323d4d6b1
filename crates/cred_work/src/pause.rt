//! Where a decision may be stopped.

/// What a decision calls once the words of the credentials have been read, and before anything is
/// decided by them. A caller can stop the decision there.
pub trait Pause {
    /// Returns when the decision may go on.
    fn pause(&self);
}

/// Stops no decision.
#[derive(Clone, Copy, PartialEq, Eq, Debug)]
pub struct NoPause;

impl Pause for NoPause {
    fn pause(&self) {}
}
