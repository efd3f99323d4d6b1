//! Lending all rows, and taking all passes back.
ghost use Rattle.std.specs.Prelude.{◌≡◌, ◌<◌, ◌≤◌, replicate, IfOk, OnOk};
ghost use Rattle.cred_script.specs.Lanes.{lanes};
ghost use Rattle.cred_turn.specs.Rows.{fresh, home_row};
ghost use Rattle.cred_turn.specs.Seen.{pass};
ghost use Rattle.cred_kernel.specs.Locks.{AreLent, AreTheirs, IsReadyBook};
ghost use Rattle.cred_kernel.specs.Turns.{AreAllTurns, AreFresh};

use crate::name::Name;
use crate::turns::{Turn, TurnList};
use cred_book::Book;
use cred_ids::NoMemory;
use cred_turn::{LaneNumbers, Pass, Roll};
use std::alloc::Global;
use std::marker::PhantomData;

/// Lends each row to its lane's turn, with the lane's numbers in the book.
///
/// # Errors
///
/// `NoMemory` if the allocation of the list of turns fails.
pub(crate) fn lend_all<K: Name>(
    alloc: Global,
    book: &Book,
    roll: &mut Roll,
) -> Result<TurnList<K>, NoMemory>
    requires script { book.now.script ≡ K.script }
    requires ready { IsReadyBook book.now }
    requires roll { roll.old.id ≡ K.roll }
    requires rows { roll.old.rows ≡ replicate (lanes K.script.lines) (home_row fresh) }
    ensures turns { IfOk result (AreFresh K.script) }
    ensures roll { roll.new.id ≡ roll.old.id }
    ensures rows { OnOk result (AreLent book.now roll.new.rows) }
{
    let mut turns = Vec::new(alloc);
    'lanes: for place in 0..book.script().lanes() {
        let lane = place + 1;
        let numbers = LaneNumbers {
            entered: 0,
            decided: 0,
            ended: book.ended(lane),
            out: None,
        };
        let pass = roll.lend(lane, numbers);
        turns.push(new_turn(lane, numbers, pass))?;
    }
    Ok(TurnList { turns })
}

/// A turn of a lane before its first event.
fn new_turn<K: Name>(lane: u32, numbers: LaneNumbers, lent: Pass) -> Turn<K>
    requires lane { (0 < lane) × (lane ≤ lanes K.script.lines) }
    requires pass { lent ≡ pass K.roll lane numbers }
    ensures { result ≡ record { lane = lane; numbers = numbers } }
{
    Turn {
        pass: Some(lent),
        lane,
        numbers,
        of: PhantomData,
    }
}

/// Takes the pass of every turn back: each turn has the numbers of its row.
pub(crate) fn take_all<K: Name>(roll: &mut Roll, turns: TurnList<K>)
    requires roll { roll.old.id ≡ K.roll }
    requires all { AreAllTurns K.script turns }
    ensures { AreTheirs roll.old.rows turns }
{
    let TurnList { turns } = turns;
    for turn in turns {
        roll.take(into_pass(turn));
    }
}

/// The turn's pass.
fn into_pass<K: Name>(turn: Turn<K>) -> Pass
    ensures { result ≡ pass K.roll turn.lane turn.numbers }
{
    let Turn { pass, .. } = turn;
    let Some(pass) = pass else { unreachable!() };
    pass
}
