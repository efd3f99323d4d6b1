//! What a task can't get, by a bound that no call leads out of.
ghost use Rattle.cred_laws.specs.Confined.{EventsLeaveIn};

/// A task that is within a tight box before an event, and lives after it, is within it still, where
/// each file that a prepared label was changed with leaves in the box.
///
/// It speaks of the task's own credential: one that it acts with by an override is no gain.
pub fn events_leave_in()
    ensures { EventsLeaveIn }
{}
