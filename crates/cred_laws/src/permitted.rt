//! How the permitted set of a task's credential may change.
ghost use Rattle.cred_laws.specs.Made.{PreparedAreMade};
ghost use Rattle.cred_laws.specs.Permitted.{PermittedGains, NewTasksAreCreated};

/// In the state after any journal a prepared credential that was changed is what its last change
/// makes of its base.
pub fn prepared_are_made()
    ensures { PreparedAreMade }
{}

/// Where a living task has another current credential after an event, what that one permits and the
/// old one did not is just what the event's answer says was gained, which is nothing but for an
/// execve (capabilities(7)). Where it has the same number, it has the same credential.
///
/// It asks for a sound state in which each prepared credential is what its change makes of its
/// base, as every journal leads to: one is committed only while its base is its task's current one.
/// The law does not say that the effective set is within the permitted one.
pub fn permitted_gains()
    ensures { PermittedGains }
{}

/// A task that an event adds is created by it: a first task with a new credential, that of the ids
/// and the namespace which the event names, and a thread or a child with that of the task which
/// creates it (fork(2), nptl(7)).
pub fn new_tasks_are_created()
    ensures { NewTasksAreCreated }
{}
