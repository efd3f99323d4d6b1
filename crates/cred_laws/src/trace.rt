//! Who may look into whom, and which processes nobody may look into.
ghost use Rattle.cred_laws.specs.Trace.{LooksIntoOwnAlone, IdsClearFlag, FlagStaysClear};

/// Where a task may look into one of another process, and asks by a credential without
/// CAP_SYS_PTRACE, all user ids of the target are the one that is asked by, and its group ids
/// likewise; nothing is permitted to it that isn't permitted to the one that asks; and its process
/// is dumpable (ptrace(2), "Ptrace access mode checking").
///
/// It asks for a state whose credentials have valid sets, as every journal leads to. It says
/// nothing of a task with the capability, of one process, and of the other security modules that
/// may refuse what this check permits.
pub fn looks_into_own_alone()
    ensures { LooksIntoOwnAlone }
{}

/// An event by which a task gets a credential with another effective or filesystem id, of the user
/// or of the group, leaves its process not dumpable (prctl(2), PR_SET_DUMPABLE): a call of its own,
/// a step in a broadcast, or a commit.
///
/// It says nothing of an override, which changes no task's own credential.
#[tactic(auto, using(crate::proofs::TraceLaws::ids_clear_flag))]
pub fn ids_clear_flag()
    ensures { IdsClearFlag }
{}

/// A process that has threads and isn't dumpable stays so over each event but two: one of its
/// threads asks for the flag, or completes an execve.
///
/// It does not say that these two set the flag: an execve that gains capabilities or changes an id
/// doesn't. Once the last thread has ended, a first task may begin the process anew, dumpable.
#[tactic(auto, using(crate::proofs::TraceLaws::flag_stays_clear))]
pub fn flag_stays_clear()
    ensures { FlagStaysClear }
{}
