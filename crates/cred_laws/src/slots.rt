//! Which slots are written.
ghost use Rattle.cred_laws.specs.Slots.{NoHeldSlotIsRewritten};

/// An event that seals a credential in a sound state puts it into a slot where nothing stands that
/// is referred to: no held credential, no current credential of a task, that of the acting task
/// among them, none that a task acts with in its place, none that an open file was opened by, and
/// no base of a prepared label. Nor does a prepared label keep the slot, but the one whose
/// credential the event seals: it commits that, or has it override the task's own. So no slot in
/// use is written. The state after every journal is sound.
///
/// A credential that was given up and waits for the sweep is not in use: its slot may be written by
/// the event that makes the sweep. The law speaks of slots as numbers. That the words of a slot are
/// written only so is a promise of the code that has words.
pub fn no_held_slot_is_rewritten()
    ensures { NoHeldSlotIsRewritten }
{}
