//! Where a worker may be stopped.

/// Where a worker stands when it comes to the gate.
#[derive(Clone, Copy, PartialEq, Eq, Debug)]
pub enum Place {
    /// Before a decision.
    BeforeDecision,
    /// In a decision: the words of the credentials have been read, and nothing is decided by them.
    InDecision,
    /// After the decision, before its event is entered.
    AfterDecision,
}

/// What a worker calls before, in and after each decision, so that a caller can hold a lane back
/// there. The worker doesn't have the lock then, and no other lane waits for it.
pub trait Gate {
    /// Returns when the worker of the lane may go on with the line.
    fn pause(&self, lane: u32, line: u32, place: Place);
}

/// A gate that holds nobody back.
#[derive(Clone, Copy, PartialEq, Eq, Debug)]
pub struct NoGate;

impl Gate for NoGate {
    fn pause(&self, _lane: u32, _line: u32, _place: Place) {}
}
