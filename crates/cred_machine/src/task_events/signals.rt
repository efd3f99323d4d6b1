//! Signals (kill(2)).
ghost use Rattle.cred_model.specs.Like.{Gives};
ghost use Rattle.cred_model.specs.TaskEvents.{by_signal};

use crate::state::State;
use cred_access::may_signal;
use cred_event::Answer;

impl State {
    /// May a task signal another, where one label holds the sender's credential and another the
    /// target's (kill(2))?
    pub(crate) fn signal(&self, from: u32, hold: u32, to: u32, target: u32) -> Answer
        ensures { Gives self.now (by_signal self.now from hold to target) result self.now }
    {
        let Some(sender) = self.tasks.get(from) else {
            return Answer::NoTask(from);
        };
        let Some(receiver) = self.tasks.get(to) else {
            return Answer::NoTask(to);
        };
        let Some(own) = self.held(hold) else {
            return Answer::NoHold(hold);
        };
        let Some(other) = self.held(target) else {
            return Answer::NoHold(target);
        };
        if may_signal(own.cred, other.cred, sender.process == receiver.process) {
            Answer::Done
        } else {
            Answer::Eperm
        }
    }
}
