//! The tasks that end with a commit.
ghost use Rattle.std.specs.Prelude.{◌≡◌, IfOk, IfSome, OnErr};
ghost use Rattle.std.specs.Option.{IsSome};
ghost use Rattle.cred_model.specs.LabelEvents as model;
ghost use Rattle.cred_procs.specs.Tasks.{EndsTasks, task_in};
ghost use Rattle.cred_model.specs.Broadcasts.{broadcasts_left};

use cred_broadcasts::Broadcasts;
use cred_event::Change;
use cred_ids::NoMemory;
use cred_procs::{CredNumbers, Ended, Procs, TaskList};
use std::alloc::Global;

/// Ends the tasks that end where this one commits this change: all other threads of its process
/// with an execve (execve(2)), and none with another change.
///
/// # Errors
///
/// `NoMemory` if the allocation of a list fails: the tasks are as they were.
pub fn end_with(
    alloc: Global,
    tasks: &mut Procs,
    change: Change,
    task: u32,
) -> Result<Ended, NoMemory>
    requires { IsSome (task_in tasks.old task) }
    ensures ended { IfOk result (λ ended. IfSome (task_in tasks.old task) (λ owner.
        EndsTasks (model.ends_with change owner) tasks.old tasks.new ended.tasks ended.numbers)) }
    ensures err { OnErr result (tasks.new ≡ tasks.old) }
{
    match change {
        Change::Exec { .. } => tasks.dethread(task),
        _ => Ok(Ended {
            tasks: TaskList::from_vec(Vec::new(alloc)),
            numbers: CredNumbers::from_vec(Vec::new(alloc)),
        }),
    }
}

/// The process's broadcast is dropped where one of its threads commits an execve (execve(2)).
pub fn drop_broadcast(broadcasts: &mut Broadcasts, change: Change, process: u32)
    ensures { broadcasts.new ≡ broadcasts_left change process broadcasts.old }
{
    if let Change::Exec { .. } = change {
        broadcasts.drop_in(process);
    }
}
