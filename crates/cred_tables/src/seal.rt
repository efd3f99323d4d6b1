//! Taking a slot for a new credential, and giving up references.
ghost use Rattle.std.specs.Prelude.{◌≡◌, ◌<◌, ◌==◌, ◌++◌, IsTrue, Some, count_by};
ghost use Rattle.cred_slots.specs.Table.{IsSameBag, is_kept_in, free_in};
ghost use Rattle.cred_tables.specs.Begin.{table_at};
ghost use Rattle.cred_tables.specs.Kept.{AreHeld, Seals, SealsKept};

use crate::prepared::GivenUp;
use cred_event::AbortCause;
use cred_slots::Slots;

/// Seals the next number in the slot that is taken next, after a sweep where one is needed. Returns
/// the number.
#[inline(always)]
pub fn seal_next(slots: &mut Slots, slot: u32) -> u64
    requires free { free_in slots.old ≡ Some slot }
    requires spare { 0 < slots.old.spare }
    ensures { Seals slots.old slots.new result slot }
{
    slots.claim(slot);
    slots.seal(slot)
}

/// Seals under the next number what stands in the slot that was kept for it, and gives up the
/// reference to its base. Returns the number.
pub fn seal_kept(slots: &mut Slots, kept: GivenUp) -> u64
    requires slot { IsTrue (is_kept_in slots.old kept.slot) }
    requires spare { 0 < slots.old.spare }
    requires base { 0 < count_by (λ n. n == kept.base) slots.old.held }
    ensures { SealsKept slots.old slots.new result kept.base kept.slot }
{
    let number = slots.seal(kept.slot);
    slots.drop_later(kept.base);
    number
}

/// Where a task found no slot, the sweep that was made to find one stands.
pub fn sweep_at(slots: &mut Slots, cause: AbortCause)
    ensures { slots.new ≡ table_at cause slots.old }
{
    if let AbortCause::Full = cause {
        slots.sweep();
    }
}

/// Gives up references to these numbers, one for each place in the list. They count until the next
/// sweep.
pub fn drop_all(slots: &mut Slots, numbers: &[u64])
    requires { AreHeld numbers.now slots.old.held }
    ensures held { IsSameBag slots.old.held (numbers.now ++ slots.new.held) }
    ensures table { slots.new ≡ record slots.old {
      held = slots.new.held;
      deferred = slots.old.deferred ++ numbers.now;
    } }
{
    for number in numbers {
        slots.drop_later(*number);
    }
}
