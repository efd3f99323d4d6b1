//! Processes that begin with a task, and whether they are dumpable.
ghost use Rattle.std.specs.Prelude.{◌≡◌, ◌<◌, ◌++◌, ◌∷◌, [], None, find, is_some, length};
ghost use Rattle.std.specs.Prelude.{true, if◌then◌else◌, OnOk, OnErr};
ghost use Rattle.cred_ids.specs.Limits.{TASKS};
ghost use Rattle.cred_model.specs.Dumpable.{flag_in, with_process_flag};
ghost use Rattle.cred_model.specs.Ends.{is_thread_of};

use cred_dumpable::DumpableFlags;
use cred_ids::NoMemory;
use cred_plain::{Task, Tasks};

/// Adds the first thread of a process, which is dumpable or isn't.
///
/// # Errors
///
/// `NoMemory` if an allocation fails: both are as they were.
pub fn begin_process(
    tasks: &mut Tasks,
    flags: &mut DumpableFlags,
    task: Task,
    dumpable: bool,
) -> Result<(), NoMemory>
    requires few { length tasks.old < TASKS }
    requires unused { flag_in flags.old task.process ≡ None }
    ensures tasks { OnOk result (tasks.new ≡ tasks.old ++ task ∷ []) }
    ensures flags { OnOk result (flags.new ≡ with_process_flag flags.old task.process dumpable) }
    ensures same_tasks { OnErr result (tasks.new ≡ tasks.old) }
    ensures same_flags { OnErr result (flags.new ≡ flags.old) }
{
    let process = task.process;
    tasks.push(task)?;
    if let Err(err) = flags.start(process, dumpable) {
        tasks.pop();
        return Err(err);
    }
    Ok(())
}

/// Adds a first task: it begins its process, which is dumpable then, or is one thread more of it.
///
/// # Errors
///
/// `NoMemory` if an allocation fails: both are as they were.
pub fn enter(tasks: &mut Tasks, flags: &mut DumpableFlags, task: Task) -> Result<(), NoMemory>
    requires few { length tasks.old < TASKS }
    requires own { is_some (flag_in flags.old task.process)
        ≡ is_some (find (is_thread_of task.process) tasks.old) }
    ensures tasks { OnOk result (tasks.new ≡ tasks.old ++ task ∷ []) }
    ensures flags { OnOk result (flags.new
        ≡ (if is_some (find (is_thread_of task.process) tasks.old) then flags.old
        else with_process_flag flags.old task.process true)) }
    ensures same_tasks { OnErr result (tasks.new ≡ tasks.old) }
    ensures same_flags { OnErr result (flags.new ≡ flags.old) }
{
    if tasks.has_process(task.process) {
        return tasks.push(task);
    }
    begin_process(tasks, flags, task, true)
}
