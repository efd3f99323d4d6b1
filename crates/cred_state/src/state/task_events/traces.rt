//! The events on who may look into whom and on processes that are dumpable, and what a commit makes
//! of the latter.
ghost use Rattle.std.specs.Prelude.{◌≡◌, Some};
ghost use Rattle.std.specs.Option.{option_map};
ghost use Rattle.cred_model.specs.Like.{Gives};
ghost use Rattle.cred_model.specs.State.{Changed, numbered};
ghost use Rattle.cred_model.specs.TaskEvents.{by_dumpable, by_dumped, by_ptrace};
ghost use Rattle.cred_access.specs.Seen.{IsSeen};
ghost use Rattle.cred_tables.specs.Kept.{cred_under, seen_in, IsInUse};
ghost use Rattle.cred_tables.specs.Prepared.{changed_of};
ghost use Rattle.cred_state.specs.Flags.{differs_from};

use crate::state::State;
use cred_access::{Seen, may_trace_by};
use cred_dumpable::{differs_by, flag_of_value};
use cred_event::{Answer, Told};
use cred_hold::Cells;
use cred_ids::Ids4;
use cred_record::PtraceMode;
use cred_script::Script;
use cred_tables::NumberedSlot;

impl State {
    /// A task makes its process dumpable, or not (prctl(2), PR_SET_DUMPABLE). `NoTask`, and
    /// `Einval` of another value than 0 and 1, leave the state.
    pub(crate) fn set_dumpable(&mut self, task: u32, value: u32) -> Answer
        ensures made { Gives self.old.state (by_dumpable self.old.state task value) result
            self.new.state }
        ensures words { self.new.words ≡ self.old.words }
    {
        let Some(process) = self.tasks.process_of(task) else {
            return Answer::NoTask(task);
        };
        let Some(dumpable) = flag_of_value(value) else {
            return Answer::Einval;
        };
        self.flags.set(process, dumpable);
        Answer::Done
    }

    /// Is the task's process dumpable (prctl(2), PR_GET_DUMPABLE)?
    pub(crate) fn dumped(&self, task: u32) -> Answer
        ensures { Gives self.now.state (by_dumped self.now.state task) result self.now.state }
    {
        match self.tasks.process_of(task) {
            Some(process) => Answer::Told(Told::Flag(self.flags.is_dumpable(process))),
            None => Answer::NoTask(task),
        }
    }

    /// May a task look into another, where one label holds the credential of the one that asks and
    /// another the target's (ptrace(2), "Ptrace access mode checking")? It takes no memory.
    pub(crate) fn trace(
        &mut self,
        cells: &Cells,
        script: &Script,
        from: u32,
        hold: u32,
        to: u32,
        target: u32,
        mode: PtraceMode,
    ) -> Answer
        requires own { self.old.words.id ≡ cells.now }
        ensures made { Gives self.old.state
            (by_ptrace script.now self.old.state from hold to target mode) result self.new.state }
        ensures same { self.new ≡ self.old }
    {
        let Some(sender) = self.tasks.process_of(from) else {
            return Answer::NoTask(from);
        };
        let Some(receiver) = self.tasks.process_of(to) else {
            return Answer::NoTask(to);
        };
        let Some(own) = self.held(hold) else {
            return Answer::NoHold(hold);
        };
        let Some(other) = self.held(target) else {
            return Answer::NoHold(target);
        };
        let dumpable = self.flags.is_dumpable(receiver);
        let asker = self.read_seen(cells, own);
        let seen = self.read_seen(cells, other);
        let reach = script.reaches(asker.ns, seen.ns);
        if may_trace_by(&asker, &seen, sender == receiver, reach, dumpable, mode) {
            Answer::Done
        } else {
            Answer::Eperm
        }
    }

    /// What that check looks at of the credential that was found. Something refers to it.
    fn read_seen(&mut self, cells: &Cells, found: NumberedSlot) -> Seen
        requires own { self.old.words.id ≡ cells.now }
        requires found { numbered self.old.state.creds found.number
            ≡ Some (seen_in self.old.state.creds found) }
        requires used { IsInUse self.old.state found.number }
        ensures seen { IsSeen result (cred_under self.old.state.creds found.number) }
        ensures same { self.new ≡ self.old }
    {
        let parts = self.read_parts(cells, found);
        let ns = self.read_ns(cells, found);
        Seen {
            uid: parts.uid,
            gid: parts.gid,
            perm: parts.perm,
            eff: parts.eff,
            ns,
        }
    }

    /// Whether an effective or a filesystem id, of the user or of the group, is another one in what
    /// the label prepared than in its task's current credential.
    pub(crate) fn changes_ids(&mut self, cells: &Cells, label: u32, task: u32) -> bool
        requires own { self.old.words.id ≡ cells.now }
        ensures ids_changed { (last : Changed)
            → changed_of self.old.state.prepared label ≡ Some last
            → result ≡ differs_from self.old.state task last }
        ensures same { self.new ≡ self.old }
    {
        let Some((uid, gid)) = self.changed_ids(label) else {
            return false;
        };
        let Some(now) = self.current(task) else {
            return false;
        };
        let old = self.read_parts(cells, now);
        differs_by(&old.uid, &old.gid, &uid, &gid)
    }

    /// The user ids and the group ids of what the label prepared, where that was changed.
    fn changed_ids(&self, label: u32) -> Option<(Ids4, Ids4)>
        ensures { result
            ≡ option_map (λ last. (last.cred.uid, last.cred.gid))
            (changed_of self.now.state.prepared label) }
    {
        let preparation = self.prepared.get(label)?;
        let last = preparation.changed.as_ref()?;
        Some((last.cred.uid, last.cred.gid))
    }
}
