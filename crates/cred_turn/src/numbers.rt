//! The numbers of a lane.

/// How far a lane has come. The roll and its passes carry these numbers and give them no meaning.
#[derive(Clone, Copy, PartialEq, Eq, Debug)]
pub struct LaneNumbers {
    /// How many entries were made for the lane.
    pub entered: u64,
    /// How many of them went out as a work first, so that they could be decided without the lock.
    pub decided: u64,
    /// How many lines of the lane have ended.
    pub ended: u32,
    /// The line that is being decided, if one is.
    pub out: Option<u32>,
}
