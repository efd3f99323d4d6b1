//! The workers, one for each lane.
ghost use Rattle.std.specs.Prelude.{◌≡◌, length, IfOk, None, Some};
ghost use Rattle.cred_script.specs.Lanes.{lanes};
ghost use Rattle.cred_work.specs.DecidedWorks.{IsDecided};
ghost use Rattle.cred_book.specs.Works.{IsWorkOf};
ghost use Rattle.cred_kernel.specs.Turns.{AreAllTurns, NoWorkIsOut};
ghost use Rattle.cred_lanes.specs.Works.{AllStopped, HasGoneOn, HasStopped, IsReturn};

use cred_book::Step;
use cred_ids::NoMemory;
use cred_kernel::{Gate, Kernel, KernelGuard, Name, Part, Turn, TurnList, decide};
use cred_work::Work;
use std::alloc::Global;
use std::sync::Wait;
use std::thread;
use std::thread::Threads;

/// Runs one worker for each turn, all in parallel where threads can be made, and else one after
/// another, until each lane has ended or the part of the journal is full. The turns come back in
/// the same order, and no line of them is being decided. It may wait.
///
/// The turns are all turns of the kernel, in the order of their lanes from 1, and none of them has
/// a line that is being decided. Each worker comes to the gate before, in and after each decision.
///
/// # Errors
///
/// `NoMemory` if an allocation of a worker or of the lists fails. The other workers still stop in
/// their time, but a turn that is lost keeps the kernel from being closed.
pub fn drive<
    K: Name + Send + Sync,
    J: Part + Send + Sync,
    G: Gate + Sync,
    R: Threads + Wait + Sync,
>(
    rt: &R,
    alloc: Global,
    kernel: &Kernel<K, J>,
    turns: TurnList<K>,
    gate: &G,
) -> Result<TurnList<K>, NoMemory>
    requires all { AreAllTurns K.script turns }
    requires home { NoWorkIsOut turns }
    ensures all { IfOk result (AreAllTurns K.script) }
    ensures home { IfOk result NoWorkIsOut }
{
    let stopped = thread::map_vec(
        rt,
        turns.into_turns(),
        &|turn: Turn<K>| -> Result<Turn<K>, NoMemory>
            requires { turn.numbers.out ≡ None }
            ensures { IfOk result (HasStopped turn) }
        { run_lane(rt, alloc, kernel, gate, turn) },
    )?;
    all_turns(alloc, stopped)
}

/// A worker releases the lock once it has made this part of the events that its lane has had, if
/// none of them had to be decided. A thread that is put to sleep and woken costs as much as a
/// hundred events, so a long lane should not release the lock at each; in a short one the lanes
/// still take turns often.
const SHARE: u64 = 16;

/// Makes the events of the turn's lane, one after another, until the lane has ended or the part of
/// the journal is full. What waits for a decision is decided without the lock.
fn run_lane<K: Name, J: Part, G: Gate, R: Wait>(
    rt: &R,
    alloc: Global,
    kernel: &Kernel<K, J>,
    gate: &G,
    turn: Turn<K>,
) -> Result<Turn<K>, NoMemory>
    requires { turn.numbers.out ≡ None }
    ensures { IfOk result (HasStopped turn) }
{
    let mut turn = turn;
    let mut step = Step::More;
    for _ in rt.forever() {
        (turn, step) = go_on(rt, kernel, turn, step)?;
        match &mut step {
            Step::More => (),
            Step::Work(work) => {
                let Ok(()) = decide(alloc, kernel.cells(), gate, &turn, work) else {
                    drop(step);
                    return Err(NoMemory);
                };
            }
            Step::Ended => {
                drop(step);
                return Ok(turn);
            }
        }
    }
    unreachable!()
}

/// Gets the lock, goes on with the turn's lane, and releases the lock. It enters the work that
/// came of the last step, if one did, which is decided, and then makes some events, up to the next
/// that waits for a decision. `Step::Ended` tells the worker to stop. No call changes the turn's
/// lane.
///
/// # Errors
///
/// `NoMemory` if an allocation of an event, a work, the state or an entry fails: the events before
/// it stay, and the turn is lost.
fn go_on<K: Name, J: Part, R: Wait>(
    rt: &R,
    kernel: &Kernel<K, J>,
    turn: Turn<K>,
    last: Step,
) -> Result<(Turn<K>, Step), NoMemory>
    requires { IsReturn K.script K.inodes K.cells turn last }
    ensures { IfOk result (λ gone. HasGoneOn K.script K.inodes K.cells turn gone.0 gone.1) }
{
    let mut guard = kernel.lock(rt, turn);
    if let Step::Work(work) = last {
        enter(&mut guard, work)?;
    }
    let step = advance_some(&mut guard)?;
    Ok((guard.release(), step))
}

/// Enters a work that was decided.
///
/// # Errors
///
/// `NoMemory` if an allocation of the state or of an entry fails.
fn enter<K: Name, J: Part>(guard: &mut KernelGuard<'_, K, J>, work: Work) -> Result<(), NoMemory>
    requires out { guard.old.numbers.out ≡ Some work.line }
    requires work { IsWorkOf K.script K.inodes K.cells work }
    requires decided { IsDecided work }
    ensures { IfOk result (λ _.
        (guard.new.lane ≡ guard.old.lane) × (guard.new.numbers.out ≡ None)) }
{
    match guard.finish(work) {
        Ok(step) => {
            drop(step);
            Ok(())
        }
        Err(unfinished) => {
            drop(unfinished);
            Err(NoMemory)
        }
    }
}

/// Makes some events of the lane under the lock, up to the next that waits for a decision.
/// `Step::Ended` is returned where the lane has ended or the part is full: no work of the lane is
/// out then. No call changes the turn's lane.
///
/// # Errors
///
/// `NoMemory` if an allocation of an event, a work, the state or an entry fails: the events before
/// it stay.
fn advance_some<K: Name, J: Part>(guard: &mut KernelGuard<'_, K, J>) -> Result<Step, NoMemory>
    requires { guard.old.numbers.out ≡ None }
    ensures { IfOk result (HasGoneOn K.script K.inodes K.cells guard.old guard.new) }
{
    let most = 1 + guard.entered() / SHARE;
    for _ in 0..most {
        if guard.is_full() {
            return Ok(Step::Ended);
        }
        match guard.advance()? {
            Step::More => (),
            step => return Ok(step),
        }
    }
    Ok(Step::More)
}

/// The turns, where every worker has stopped.
fn all_turns<K: Name>(
    alloc: Global,
    stopped: Vec<Result<Turn<K>, NoMemory>>,
) -> Result<TurnList<K>, NoMemory>
    requires count { length stopped.items ≡ lanes K.script.lines }
    requires each { AllStopped stopped.items }
    ensures all { IfOk result (AreAllTurns K.script) }
    ensures home { IfOk result NoWorkIsOut }
{
    let mut turns = Vec::new(alloc);
    for turn in stopped {
        turns.push(turn?)?;
    }
    Ok(TurnList::of(turns))
}
