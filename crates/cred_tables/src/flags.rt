//! What happens to the tasks and to the flags of their processes together.
ghost use Rattle.std.specs.Prelude.{◌≡◌, ◌<◌, ◌++◌, ◌∷◌, [], None, Some, true, find, is_some};
ghost use Rattle.std.specs.Prelude.{length, if◌then◌else◌, IfOk, OnOk, OnErr};
ghost use Rattle.std.specs.Option.{IsSome};
ghost use Rattle.cred_ids.specs.Limits.{TASKS};
ghost use Rattle.cred_model.specs.Dumpable.{flag_in, is_dumpable, renewed, with_process_flag};
ghost use Rattle.cred_model.specs.Dumpable.{without_flag};
ghost use Rattle.cred_model.specs.Ends.{is_beside, is_task, left_by, survivors};
ghost use Rattle.cred_model.specs.Moves.{first_task};
ghost use Rattle.cred_model.specs.State.{Task};
ghost use Rattle.cred_procs.specs.Tasks.{forked, has_process, task_in};

use cred_dumpable::DumpableFlags;
use cred_ids::NoMemory;
use cred_procs::{CredNumbers, Procs};

/// The first thread of a process is created, and the process is dumpable or isn't.
///
/// # Errors
///
/// `NoMemory` if an allocation fails: the tasks and the flags are as they were.
fn begin_process(
    tasks: &mut Procs,
    flags: &mut DumpableFlags,
    task: u32,
    process: u32,
    number: u64,
    dumpable: bool,
) -> Result<(), NoMemory>
    requires new { task_in tasks.old task ≡ None }
    requires room { length tasks.old < TASKS }
    requires unused { flag_in flags.old process ≡ None }
    ensures tasks { OnOk result (tasks.new ≡ tasks.old ++ first_task task process number ∷ []) }
    ensures flags { OnOk result (flags.new ≡ with_process_flag flags.old process dumpable) }
    ensures no_tasks { OnErr result (tasks.new ≡ tasks.old) }
    ensures no_flags { OnErr result (flags.new ≡ flags.old) }
{
    tasks.start(task, process, number)?;
    if let Err(err) = flags.start(process, dumpable) {
        tasks.remove(task);
        return Err(err);
    }
    Ok(())
}

/// A first task is created: it begins its process, which is dumpable then, or is another thread of
/// it.
///
/// # Errors
///
/// `NoMemory` if an allocation fails: the tasks and the flags are as they were.
pub fn start_in(
    tasks: &mut Procs,
    flags: &mut DumpableFlags,
    task: u32,
    process: u32,
    number: u64,
) -> Result<(), NoMemory>
    requires new { task_in tasks.old task ≡ None }
    requires room { length tasks.old < TASKS }
    requires own { is_some (flag_in flags.old process) ≡ has_process tasks.old process }
    ensures tasks { OnOk result (tasks.new ≡ tasks.old ++ first_task task process number ∷ []) }
    ensures flags { OnOk result (flags.new
        ≡ (if has_process tasks.old process then flags.old
        else with_process_flag flags.old process true)) }
    ensures no_tasks { OnErr result (tasks.new ≡ tasks.old) }
    ensures no_flags { OnErr result (flags.new ≡ flags.old) }
{
    if tasks.has_process(process) {
        return tasks.start(task, process, number);
    }
    begin_process(tasks, flags, task, process, number, true)
}

/// A task creates a process (fork(2)), which is dumpable where the task's is.
///
/// # Errors
///
/// `NoMemory` if an allocation fails: the tasks and the flags are as they were.
pub fn fork_in(
    tasks: &mut Procs,
    flags: &mut DumpableFlags,
    task: u32,
    child: u32,
    process: u32,
) -> Result<(), NoMemory>
    requires alive { IsSome (task_in tasks.old task) }
    requires new { task_in tasks.old child ≡ None }
    requires room { length tasks.old < TASKS }
    requires unused { flag_in flags.old process ≡ None }
    ensures tasks { OnOk result (tasks.new ≡ forked tasks.old task child process) }
    ensures flags { OnOk result ((owner : Task) → task_in tasks.old task ≡ Some owner
        → flags.new ≡ with_process_flag flags.old process (is_dumpable flags.old owner.process)) }
    ensures no_tasks { OnErr result (tasks.new ≡ tasks.old) }
    ensures no_flags { OnErr result (flags.new ≡ flags.old) }
{
    // Both are there: the task is alive.
    let own = tasks.process_of(task).unwrap();
    let number = tasks.current(task).unwrap();
    let dumpable = flags.is_dumpable(own);
    begin_process(tasks, flags, child, process, number, dumpable)
}

/// A task has another credential from now on. `ids_changed` says that an effective or a filesystem
/// id is another one in it: then the task's process is no longer dumpable.
#[inline(always)]
pub fn renew_in(tasks: &Procs, flags: &mut DumpableFlags, task: u32, ids_changed: bool)
    requires { IsSome (task_in tasks.now task) }
    ensures { (owner : Task) → task_in tasks.now task ≡ Some owner
        → flags.new ≡ renewed flags.old owner.process ids_changed }
{
    // Most calls leave these ids, and then the process isn't looked for.
    if !ids_changed {
        return;
    }
    // It is there: the task is alive.
    let process = tasks.process_of(task).unwrap();
    flags.set(process, false);
}

/// A task ends, and with the last of a process the process. Returns the numbers that the task
/// referred to.
///
/// # Errors
///
/// `NoMemory` if an allocation fails: the tasks and the flags are as they were.
pub fn exit_in(
    tasks: &mut Procs,
    flags: &mut DumpableFlags,
    task: u32,
) -> Result<CredNumbers, NoMemory>
    requires { IsSome (task_in tasks.old task) }
    ensures numbers { IfOk result (λ numbers. numbers ≡ left_by (is_task task) tasks.old) }
    ensures tasks { OnOk result (tasks.new ≡ survivors (is_task task) tasks.old) }
    ensures flags { OnOk result ((owner : Task) → task_in tasks.old task ≡ Some owner
        → flags.new ≡ (if is_some (find (is_beside owner) tasks.old) then flags.old
        else without_flag flags.old owner.process)) }
    ensures no_tasks { OnErr result (tasks.new ≡ tasks.old) }
    ensures no_flags { OnErr result (flags.new ≡ flags.old) }
{
    // It is there: the task is alive.
    let process = tasks.process_of(task).unwrap();
    let numbers = tasks.exit(task)?;
    let has_other = tasks.has_process(process);
    flags.leave(process, has_other);
    Ok(numbers)
}
