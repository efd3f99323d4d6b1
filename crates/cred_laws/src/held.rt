//! What was sealed, what is held and what is prepared stays as it is.
ghost use Rattle.cred_laws.specs.Held.{SealedStays, HoldStays, HeldStays, PreparedStays};

/// Whatever is entered after a journal, what was sealed in it keeps its number, its credential and
/// its slot.
///
/// It does not say that the slot still has that credential: once nothing refers to it, the slot may
/// be given to a later one, which has a number of its own.
#[tactic(auto, using(crate::proofs::HeldLaws::sealed_stays))]
pub fn sealed_stays()
    ensures { SealedStays }
{}

/// A hold stands, and keeps its number, after each event but the release of its own label.
pub fn hold_stays()
    ensures { HoldStays }
{}

/// From the event that takes it to the one that releases it, a label holds one credential of one
/// number in one slot, the same throughout.
///
/// It does not say that a task's current credential stays: a task may go on to another one while a
/// label holds the old.
#[tactic(auto, using(crate::proofs::HeldLaws::held_stays))]
pub fn held_stays()
    ensures { HeldStays }
{}

/// A prepared label stands, and keeps its task, its base and its slot, after each event that does
/// not end it: its own commit or abort, or an override by what it prepared.
///
/// It does not say that the prepared credential stays: each change makes it anew from the base.
pub fn prepared_stays()
    ensures { PreparedStays }
{}
