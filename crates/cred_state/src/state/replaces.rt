//! A task's current credential is replaced.
ghost use Rattle.std.specs.Prelude.{◌≡◌, Some, length, slice_set};
ghost use Rattle.cred_ids.specs.Limits.{SLOTS};
ghost use Rattle.cred_record.specs.Credential.{AreValidSets};
ghost use Rattle.cred_model.specs.Dumpable.{renewed};
ghost use Rattle.cred_model.specs.Moves.{with_current};
ghost use Rattle.cred_model.specs.State.{Task};
ghost use Rattle.cred_procs.specs.Tasks.{task_in};
ghost use Rattle.cred_setid.specs.Parts.{changed};
ghost use Rattle.cred_tables.specs.Kept.{cred_under, creds_in};
ghost use Rattle.cred_state.specs.Replacements.{IsReplaced, MayReplace};

use cred_dumpable::DumpableFlags;
use cred_hold::{Cells, Master};
use cred_ids::Groups;
use cred_procs::Procs;
use cred_setid::IdParts;
use cred_slots::Slots;
use cred_tables::{NumberedSlot, renew_in, seal_next};

/// A task gets its current credential with these parts, and with these groups where some are given,
/// in the slot that is taken next, and the one before is given up. `ids_changed` says that an
/// effective or a filesystem id is another one in it: then the task's process is no longer
/// dumpable. Returns the number of the new one.
#[inline(always)]
pub(super) fn replace_in(
    tasks: &mut Procs,
    flags: &mut DumpableFlags,
    slots: &mut Slots,
    master: &mut Master,
    cells: &Cells,
    task: u32,
    slot: u32,
    now: NumberedSlot,
    parts: &IdParts,
    groups: &Option<Groups>,
    ids_changed: bool,
) -> u64
    requires own { master.old.id ≡ cells.now }
    requires may { MayReplace tasks.old slots.old master.old task slot now }
    requires valid { let c = cred_under (creds_in master.old.slots slots.old.sealed) now.number in
        AreValidSets parts.now.perm c.inh parts.now.eff parts.now.amb }
    ensures tasks { tasks.new ≡ with_current tasks.old task result }
    ensures flags { (owner : Task) → task_in tasks.old task ≡ Some owner
        → flags.new ≡ renewed flags.old owner.process ids_changed }
    ensures table { IsReplaced slots.old slots.new result slot now.number }
    ensures words { let c = cred_under (creds_in master.old.slots slots.old.sealed) now.number in
        master.new ≡ record master.old {
          slots = slice_set master.old.slots slot (Some (changed c parts.now groups.now));
        } }
    ensures long { length master.old.slots ≡ SLOTS }
{
    renew_in(tasks, flags, task, ids_changed);
    let number = seal_next(slots, slot);
    master.set_like(cells, now.slot, slot, parts, groups);
    tasks.set_current(task, number);
    slots.drop_later(now.number);
    number
}
