//! The events on who may look into whom, and on processes that are dumpable.
ghost use Rattle.cred_model.specs.Like.{Gives};
ghost use Rattle.cred_model.specs.TaskEvents.{by_dumpable, by_dumped, by_ptrace};

use crate::state::State;
use cred_access::may_trace;
use cred_dumpable::flag_of_value;
use cred_event::{Answer, Told};
use cred_record::PtraceMode;
use cred_script::Script;

impl State {
    /// A task makes its process dumpable, or not. `NoTask`, and `Einval` of another value than 0
    /// and 1, leave the state.
    pub(crate) fn set_dumpable(&mut self, task: u32, value: u32) -> Answer
        ensures { Gives self.old (by_dumpable self.old task value) result self.new }
    {
        let Some(owner) = self.tasks.get(task) else {
            return Answer::NoTask(task);
        };
        let Some(dumpable) = flag_of_value(value) else {
            return Answer::Einval;
        };
        self.flags.set(owner.process, dumpable);
        Answer::Done
    }

    /// Is the task's process dumpable?
    pub(crate) fn dumped(&self, task: u32) -> Answer
        ensures { Gives self.now (by_dumped self.now task) result self.now }
    {
        match self.tasks.get(task) {
            Some(owner) => Answer::Told(Told::Flag(self.flags.is_dumpable(owner.process))),
            None => Answer::NoTask(task),
        }
    }

    /// May a task look into another, where one label holds the credential of the one that asks and
    /// another the target's (ptrace(2), "Ptrace access mode checking")?
    pub(crate) fn trace(
        &self,
        script: &Script,
        from: u32,
        hold: u32,
        to: u32,
        target: u32,
        mode: PtraceMode,
    ) -> Answer
        ensures { Gives self.now (by_ptrace script.now self.now from hold to target mode)
            result self.now }
    {
        let Some(sender) = self.tasks.get(from) else {
            return Answer::NoTask(from);
        };
        let Some(receiver) = self.tasks.get(to) else {
            return Answer::NoTask(to);
        };
        let Some(own) = self.held(hold) else {
            return Answer::NoHold(hold);
        };
        let Some(other) = self.held(target) else {
            return Answer::NoHold(target);
        };
        let asker = own.cred;
        let asked = other.cred;
        let same = sender.process == receiver.process;
        let reach = script.reaches(asker.ns, asked.ns);
        let dumpable = self.flags.is_dumpable(receiver.process);
        if may_trace(asker, asked, same, reach, dumpable, mode) {
            Answer::Done
        } else {
            Answer::Eperm
        }
    }
}
