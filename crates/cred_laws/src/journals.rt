//! The laws, of the states that one journal leads through.
ghost use Rattle.cred_laws.specs.Journals.{JournalsAreLawful};

/// Every journal whose entries have the answers that the rules give is lawful: each of its states
/// is sound, each prepared credential there is what its change makes of its base, and the sets of
/// each sealed one are those of a credential. Its entries seal credentials only in slots that are
/// not in use; what is sealed, what is held, what an open file was opened by and what is prepared
/// stays. What an entry adds to what a living task is permitted is what its answer says was gained,
/// and a task lives from the entry on that creates it.
///
/// Where an entry completes a call that all threads of a process make, each live thread has the ids
/// or the groups that the call names. And where before its own step each thread had the same real,
/// effective and saved ids of the call's kind, and all of them or none the kind's capability, these
/// three are equal in all live threads after it.
///
/// Where an entry says that a task may look into one of another process, and was asked without
/// CAP_SYS_PTRACE, the target's ids are those that are asked by, it is permitted no more, and its
/// process is dumpable. And where an entry gives a task another effective or filesystem id, its
/// process is not dumpable after it, until one of its threads asks for that or completes an execve,
/// or the last one ends.
///
/// Where an entry answers that an execve is completed, the credential is what the rule of execve
/// makes with the file as it stood at the last change of the label. A file changes only by an entry
/// of chown(2), chmod(2) or setxattr(2) on it; and after a chown that gives an owner or a group to
/// an executable regular file, that has no attribute and no set-user-ID bit until its mode or its
/// attribute is set. An id call of one thread alone leaves every other task what it had.
///
/// A journal in order, and one whose lanes take turns, has those answers.
pub fn journals_are_lawful()
    ensures { JournalsAreLawful }
{}
