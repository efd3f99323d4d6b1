//! What no clause of the passes says: that a roll is made where memory is left, that a pass has no
//! bytes, and that one goes through a thread of its own.
ghost use Rattle.std.specs.Prelude.{◌≡◌};

use cred_turn::{LaneNumbers, Pass, Roll};
use std::mem::size_of;
use std::test::Fail;
use std::thread::{Threads, join};

#[test]
fn a_pass_has_no_bytes(rt: HostRuntime) -> Result<(), Fail> {
    assert!(rt; size_of::<Pass>() == 0);
    Ok(())
}

const NOTHING: LaneNumbers = LaneNumbers {
    entered: 0,
    decided: 0,
    ended: 0,
    out: None,
};

const SOMETHING: LaneNumbers = LaneNumbers {
    entered: 3,
    decided: 1,
    ended: 1,
    out: Some(7),
};

/// Hands both passes back, each through a thread of its own.
fn through_threads<R: Threads + Sync>(rt: &R, one: Pass, two: Pass) -> (Pass, Pass)
    ensures { (result.0 ≡ one) × (result.1 ≡ two) }
{
    join(
        rt,
        move || -> Pass
            ensures { result ≡ one }
        { one },
        move || -> Pass
            ensures { result ≡ two }
        { two },
    )
}

#[test]
fn passes_come_back(rt: HostRuntime) -> Result<(), Fail> {
    Roll::make(rt.alloc(), 0)?;
    let mut roll = Roll::make(rt.alloc(), 16)?;
    let first = roll.lend(1, NOTHING);
    let last = roll.lend(16, SOMETHING);
    let (first, last) = through_threads(&rt, first, last);
    roll.take(last);
    roll.take(first);
    let again = roll.lend(16, NOTHING);
    roll.take(again);
    Ok(())
}
