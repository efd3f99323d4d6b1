//! An id call of one thread alone.
ghost use Rattle.cred_laws.specs.Raw.{RawsLeaveOthers, RawsAreByTheRule};

/// An id call that a thread makes for itself alone leaves every other task the current credential
/// that it had, also the other threads of its process (nptl(7), "NPTL and process credential
/// changes").
#[tactic(auto, using(crate::proofs::RawLaws::raws_leave_others))]
pub fn raws_leave_others()
    ensures { RawsLeaveOthers }
{}

/// Where such a call isn't refused, the task has what the call's rule makes of the credential that
/// it had, under the number and in the slot that are answered.
pub fn raws_are_by_the_rule()
    ensures { RawsAreByTheRule }
{}
