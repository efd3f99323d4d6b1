//! Laws of execve(2), over the rule that `exec` is proved to follow. There is nothing to run.
ghost use Rattle.cred_exec.specs.Laws.{GainsAreWhatIsGained, NoNewPrivsGainsNothing};
ghost use Rattle.cred_exec.specs.Laws.{PlainFilesKeepAmbient, PrivilegedFilesEmptyAmbient};
ghost use Rattle.cred_exec.specs.Laws.{InheritableAndBoundingStay, OtherSecurebitsStay};
ghost use Rattle.cred_exec.specs.Laws.{RealIdsAndGroupsStay};

/// No two of the three gains have a capability in common, and together they are just what is
/// permitted after the execve and was not before.
pub fn gains_are_what_is_gained()
    ensures { GainsAreWhatIsGained }
{}

/// Under no_new_privs an execve makes nothing permitted that was not, also for root, and reports no
/// gain (prctl(2), PR_SET_NO_NEW_PRIVS).
pub fn no_new_privs_gains_nothing()
    ensures { NoNewPrivsGainsNothing }
{}

/// A file without an attribute that counts and without a set-id bit in force leaves the ambient set
/// as it is (capabilities(7), "Ambient").
pub fn plain_files_keep_ambient()
    ensures { PlainFilesKeepAmbient }
{}

/// A file with an attribute that counts, also one with empty sets, or with a set-id bit in force,
/// empties the ambient set (capabilities(7), "Ambient").
pub fn privileged_files_empty_ambient()
    ensures { PrivilegedFilesEmptyAmbient }
{}

/// No execve adds to the inheritable or to the bounding set, or takes from them (capabilities(7),
/// "Transformation of capabilities during execve()").
pub fn inheritable_and_bounding_stay()
    ensures { InheritableAndBoundingStay }
{}

/// Every execve unsets KEEP_CAPS, also where it is locked, and leaves each other flag and each lock
/// (capabilities(7), "The securebits flags").
pub fn other_securebits_stay()
    ensures { OtherSecurebitsStay }
{}

/// The real ids, the supplementary groups, the user namespace, root's id in it and no_new_privs
/// stay (execve(2), prctl(2)).
pub fn real_ids_and_groups_stay()
    ensures { RealIdsAndGroupsStay }
{}
