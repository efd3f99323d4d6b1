//! Laws of the calls that set ids, over the definitions that `apply_to` is proved to follow. There
//! is nothing to run.
ghost use Rattle.cred_setid.specs.Laws.{UserIdsStayOwn, GroupIdsStayOwn, PermittedNeverGrows};

/// Without CAP_SETUID no call gives a task a real, effective or saved user id that was none of the
/// three before (credentials(7)). So what a program gave up for good it can't take back.
#[tactic(auto, using(crate::proofs::SetIdLaws::user_ids_stay_own))]
pub fn user_ids_stay_own()
    ensures { UserIdsStayOwn }
{}

/// Without CAP_SETGID no call gives a task a real, effective or saved group id that was none of the
/// three before.
#[tactic(auto, using(crate::proofs::SetIdLaws::group_ids_stay_own))]
pub fn group_ids_stay_own()
    ensures { GroupIdsStayOwn }
{}

/// No call that sets ids adds to the permitted set, whoever makes it (capabilities(7)).
#[tactic(auto, using(crate::proofs::SetIdLaws::permitted_never_grows))]
pub fn permitted_never_grows()
    ensures { PermittedNeverGrows }
{}
