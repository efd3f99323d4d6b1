//! What no clause can say: that each call succeeds where memory is left, and that no answer takes a
//! search through the references.
ghost use Rattle.std.specs.Prelude.{◌<◌, ◌∷◌, IfOk, count_by, ◌==◌};
ghost use Rattle.cred_slots.specs.Table.{IsSameBag};

use cred_ids::NoMemory;
use cred_slots::Slots;
use std::test::Fail;

const MILLION: u64 = 1_000_000;

/// Seals one number in the least free slot.
fn seal_one(slots: &mut Slots) -> Result<(u64, u32), Fail>
    ensures { IfOk result (λ made. IsSameBag slots.new.held (made.0 ∷ slots.old.held)) }
{
    slots.reserve()?;
    let Some(slot) = slots.free_slot() else {
        return Err(Fail::from("no slot is free"));
    };
    slots.claim(slot);
    Ok((slots.seal(slot), slot))
}

/// Makes a reference to the number, as often as asked.
fn add_often(slots: &mut Slots, number: u64, times: u64) -> Result<(), NoMemory>
    requires { 0 < count_by (λ n. n == number) slots.old.held }
{
    for _ in 0..times {
        slots.reserve()?;
        slots.add(number);
    }
    Ok(())
}

/// How often the slot's uses are this many.
fn times_used(slots: &Slots, slot: u32, uses: u64, times: u64) -> u64 {
    (0..times).filter(|_| slots.uses(slot) == uses).count() as u64
}

#[test]
fn a_million_references_are_counted(rt: HostRuntime) -> Result<(), Fail> {
    let mut slots = Slots::new(rt.alloc())?;
    let (number, slot) = seal_one(&mut slots)?;
    add_often(&mut slots, number, MILLION)?;
    assert!(rt; times_used(&slots, slot, MILLION + 1, MILLION) == MILLION);
    Ok(())
}
