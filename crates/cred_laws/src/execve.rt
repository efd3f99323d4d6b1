//! What an execve makes of the credential of a task.
ghost use Rattle.cred_laws.specs.Execve.{ExecvesAreByTheRule};

/// An event which answers that an execve is completed commits a label that was changed last by the
/// execve of a file of the script. The rule of execve makes the task's new credential from its old
/// one, from such a file and from the root ids of its user namespace and of that one's ancestors,
/// with just the gains that are answered. No other thread of the task's process goes on
/// (execve(2)).
///
/// It asks for a sound state in which each prepared credential is what its change makes of its
/// base, as every journal leads to. It does not say that the change was the label's only one: an
/// earlier one is overwritten. `journals_are_lawful` says how the file stood at that change.
pub fn execves_are_by_the_rule()
    ensures { ExecvesAreByTheRule }
{}
