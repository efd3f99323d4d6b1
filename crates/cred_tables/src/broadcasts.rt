//! What happens to the tasks and the open broadcasts together.
ghost use Rattle.std.specs.Prelude.{◌≡◌, ◌<◌, length, None, IfOk, IfSome, OnOk, OnErr};
ghost use Rattle.std.specs.Option.{IsSome};
ghost use Rattle.cred_ids.specs.Limits.{TASKS};
ghost use Rattle.cred_model.specs.Broadcasts.{joined, WaitsNowhere};
ghost use Rattle.cred_procs.specs.Tasks.{spawned, task_in};
ghost use Rattle.cred_tables.specs.Begin.{HasBegun, MayWait, broadcast_begun};

use cred_broadcasts::Broadcasts;
use cred_ids::NoMemory;
use cred_procs::Procs;
use cred_record::IdCall;

/// A task has made an id call: the other threads of its process wait for their step. Returns how
/// many they are. Where it has none, the broadcast is completed at once.
///
/// # Errors
///
/// `NoMemory` if an allocation of a list or of the call's copy fails: the broadcasts are as they
/// were.
pub fn begin_in(
    tasks: &Procs,
    broadcasts: &mut Broadcasts,
    line: u32,
    task: u32,
    call: &IdCall,
) -> Result<u32, NoMemory>
    requires { MayWait tasks.now broadcasts.old line task }
    ensures ok { IfOk result (λ left. IfSome (task_in tasks.now task) (λ owner.
        HasBegun broadcasts.old broadcasts.new
        (broadcast_begun line task call.now owner tasks.now) left)) }
    ensures err { OnErr result (broadcasts.new ≡ broadcasts.old) }
{
    // It is there: the task is alive.
    let process = tasks.process_of(task).unwrap();
    let others = tasks.others(process, task)?;
    broadcasts.begin(line, process, task, call, others.items())?;
    Ok(others.items().len() as u32)
}

/// A task creates a thread of its process, which waits where its creator waits.
///
/// # Errors
///
/// `NoMemory` if an allocation of room for the thread or for its place among those that wait fails:
/// the tasks and the broadcasts are as they were.
pub fn spawn_in(
    tasks: &mut Procs,
    broadcasts: &mut Broadcasts,
    task: u32,
    child: u32,
) -> Result<(), NoMemory>
    requires alive { IsSome (task_in tasks.old task) }
    requires new { task_in tasks.old child ≡ None }
    requires room { length tasks.old < TASKS }
    requires nowhere { WaitsNowhere broadcasts.old child }
    ensures tasks { OnOk result (tasks.new ≡ spawned tasks.old task child) }
    ensures broadcasts { OnOk result (broadcasts.new ≡ joined task child broadcasts.old) }
    ensures no_tasks { OnErr result (tasks.new ≡ tasks.old) }
    ensures no_broadcasts { OnErr result (broadcasts.new ≡ broadcasts.old) }
{
    tasks.spawn(task, child)?;
    if let Err(err) = broadcasts.join(task, child) {
        tasks.remove(child);
        return Err(err);
    }
    Ok(())
}
