//! Decisions of works, which need no lock.
ghost use Rattle.std.specs.Prelude.{◌≡◌, Some, OnOk, OnErr};
ghost use Rattle.cred_book.specs.Works.{IsWorkOf};
ghost use Rattle.cred_kernel.specs.Deciding.{WasDecided};

use crate::cells::KernelCells;
use crate::gate::{Gate, Place};
use crate::name::Name;
use crate::turns::Turn;
use cred_ids::NoMemory;
use cred_work::{Pause, Work, perform};
use std::alloc::Global;

/// A gate, as the decision of a lane's line calls it: at the place in the decision.
#[derive(Drop)]
struct InDecision<'g, G: Gate> {
    gate: &'g G,
    lane: u32,
    line: u32,
}

impl<G: Gate> Pause for InDecision<'_, G> {
    fn pause(&self) {
        self.gate.pause(self.lane, self.line, Place::InDecision);
    }
}

/// Decides the work of the turn's lane that is out. It stays this kernel's, and of the same line.
/// It is decided in place: to move it takes as long as most decisions. The gate is called before
/// the decision, in it and after it.
///
/// It takes no lock: it sees the cells alone, and it needs the lane's turn, which whoever gets the
/// lock gives for it. It waits for nobody but the gate.
///
/// # Errors
///
/// `NoMemory` if an allocation of the decision fails: the work is as it was.
pub fn decide<K: Name, G: Gate>(
    alloc: Global,
    cells: &KernelCells<K>,
    gate: &G,
    turn: &Turn<K>,
    work: &mut Work,
) -> Result<(), NoMemory>
    requires out { turn.now.numbers.out ≡ Some work.old.line }
    requires work { IsWorkOf K.script K.inodes K.cells work.old }
    ensures decided { OnOk result (WasDecided K.script K.inodes K.cells work.old work.new) }
    ensures same { OnErr result (work.new ≡ work.old) }
{
    let lane = turn.lane();
    let line = work.line();
    gate.pause(lane, line, Place::BeforeDecision);
    let stop = InDecision { gate, lane, line };
    perform(alloc, cells.shared(), &stop, work)?;
    gate.pause(lane, line, Place::AfterDecision);
    Ok(())
}
