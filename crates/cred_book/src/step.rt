//! What a step of a run comes to.

use cred_work::Work;

/// What a step of a lane came to.
#[derive(Drop)]
pub enum Step {
    /// One event of the lane was entered.
    More,
    /// The lane's next event waits for a decision, and nothing was entered. The work has the tokens
    /// that it is decided on.
    Work(Work),
    /// The lane has no line left, or waits for the setup.
    Ended,
}

/// Memory ran out while a work's event was entered. The work is handed back as it was.
#[derive(Drop)]
pub struct Unfinished {
    /// The work, which is still out.
    pub work: Work,
}
