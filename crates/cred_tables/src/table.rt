//! The sealed credentials, by their numbers.
ghost use Rattle.std.specs.Prelude.{◌≡◌, List};
ghost use Rattle.std.specs.declared.option.Option.{Option};
ghost use Rattle.std.specs.Option.{option_map};
ghost use Rattle.cred_record.specs.Credential.{Credential};
ghost use Rattle.cred_model.specs.State as model;
ghost use Rattle.cred_tables.specs.Kept.{creds_in, seen_in};

use cred_slots::Slots;

/// A sealed credential, by its number and its slot. What it says is read from the slot's words.
#[derive(Clone, Copy)]
pub struct NumberedSlot {
    pub number: u64,
    pub slot: u32,
}

/// The sealed credential of this number, whatever stands in the words. Where nothing refers to the
/// number any more, a later credential may stand in its slot.
pub fn sealed_at(slots: &Slots, number: u64) -> Option<NumberedSlot>
    ensures { (places : List (Option Credential)) →
        option_map (seen_in (creds_in places slots.now.sealed)) result
        ≡ model.numbered (creds_in places slots.now.sealed) number }
{
    if number >= slots.next_number() {
        return None;
    }
    let slot = slots.slot_of(number);
    Some(NumberedSlot { number, slot })
}
