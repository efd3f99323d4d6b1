//! What each seat of the table knows. No value of these types is ever made: they stand in clauses
//! and proofs.
use crate::numbers::LaneNumbers;
use std::collections::LinkedList;

/// The row of a lane.
pub struct LaneRow {
    /// The numbers with which it was lent last.
    pub numbers: LaneNumbers,
    /// Whether its pass is out.
    pub lent: bool,
}

/// What a pass carries.
pub struct LentPass {
    /// The lane.
    pub lane: u32,
    /// The numbers with which its row was lent.
    pub numbers: LaneNumbers,
}

/// The view of a seat.
pub enum TurnView {
    /// The roll's: the rows, that of lane 1 first, and the pass that came back and is set aside
    /// until the load after the return.
    Roll(LinkedList<LaneRow>, Option<LentPass>),
    /// A pass's.
    Pass(LentPass),
    /// That of a pass that was returned.
    Spent,
}
