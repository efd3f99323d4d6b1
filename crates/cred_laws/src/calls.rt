//! What no call on a credential undoes, and which adds to what is permitted.
ghost use Rattle.cred_laws.specs.Calls.{LocksStaySet, BoundingNeverGrows, PermittedGrowsByExecve};
ghost use Rattle.cred_laws.specs.Calls.{NoNewPrivsStays};

/// A lock of the securebits that is set stays set over every call, and so the flag that it locks
/// stays as it is (capabilities(7): locking is irreversible). Only KEEP_CAPS is cleared by every
/// execve, locked or not.
#[tactic(auto, using(crate::proofs::CallLaws::locks_stay_set))]
pub fn locks_stay_set()
    ensures { LocksStaySet }
{}

/// No call adds to the bounding set (capabilities(7), "Capability bounding set").
#[tactic(auto, using(crate::proofs::CallLaws::bounding_never_grows))]
pub fn bounding_never_grows()
    ensures { BoundingNeverGrows }
{}

/// No call but execve adds to the permitted set, whoever makes it, and execve just what it says
/// that it gained (capabilities(7): what is dropped from it comes back by execve alone).
#[tactic(auto, using(crate::proofs::CallLaws::permitted_grows_by_execve))]
pub fn permitted_grows_by_execve()
    ensures { PermittedGrowsByExecve }
{}

/// no_new_privs, once set, stays set over every call (prctl(2), PR_SET_NO_NEW_PRIVS).
pub fn no_new_privs_stays()
    ensures { NoNewPrivsStays }
{}
