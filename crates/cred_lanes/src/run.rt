//! One part of a run in which the lanes are threads.
ghost use Rattle.std.specs.Prelude.{◌≡◌, IfOk};
ghost use Rattle.cred_kernel.specs.Turns.{AreAllTurns, NoWorkIsOut};

use crate::workers::drive;
use cred_ids::NoMemory;
use cred_kernel::{Gate, Kernel, Name, Part, Rest, TurnList};
use std::alloc::Global;
use std::marker::Brand;
use std::sync::Wait;
use std::thread::Threads;

/// Runs the lanes of a kernel that is at rest, each as a thread of its own where one can be made,
/// until all of them have ended or the part of the journal is full. Then it is at rest again, and
/// the entries of earlier parts are those that were. It may wait.
///
/// # Errors
///
/// `NoMemory` if an allocation fails, in the threads too: the kernel is lost.
pub fn run_part<K: Name + Send + Sync, G: Gate + Sync, R: Threads + Wait + Sync>(
    rt: &R,
    alloc: Global,
    rest: Rest<K>,
    turns: TurnList<K>,
    gate: &G,
) -> Result<(Rest<K>, TurnList<K>), NoMemory>
    requires all { AreAllTurns K.script turns }
    requires home { NoWorkIsOut turns }
    ensures earlier { IfOk result (λ ran. ran.0.earlier ≡ rest.earlier) }
    ensures all { IfOk result (λ ran. AreAllTurns K.script ran.1) }
    ensures home { IfOk result (λ ran. NoWorkIsOut ran.1) }
{
    run_named::<K, Brand, G, R>(rt, alloc, rest, turns, gate)
}

/// The same under a name that stands for the entries of earlier parts.
fn run_named<
    K: Name + Send + Sync,
    J: Part + Send + Sync,
    G: Gate + Sync,
    R: Threads + Wait + Sync,
>(
    rt: &R,
    alloc: Global,
    rest: Rest<K>,
    turns: TurnList<K>,
    gate: &G,
) -> Result<(Rest<K>, TurnList<K>), NoMemory>
    requires earlier { rest.earlier ≡ J.earlier }
    requires all { AreAllTurns K.script turns }
    requires home { NoWorkIsOut turns }
    ensures earlier { IfOk result (λ ran. ran.0.earlier ≡ J.earlier) }
    ensures all { IfOk result (λ ran. AreAllTurns K.script ran.1) }
    ensures home { IfOk result (λ ran. NoWorkIsOut ran.1) }
{
    let kernel = Kernel::<K, J>::start(rest);
    let turns = drive(rt, alloc, &kernel, turns, gate)?;
    Ok((kernel.stop(), turns))
}
