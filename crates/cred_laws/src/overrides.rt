//! What an override leaves as it is, and what an open file keeps.
ghost use Rattle.cred_laws.specs.Overrides.{OverridesLeaveCurrent, OpenStays};

/// Where a task overrides its credential (Linux's override_creds()) or reverts to the one
/// before (revert_creds()), each task keeps the current credential that it had: the one that it is
/// acted on by, which /proc shows and signals are tested against. So an override takes nothing from
/// a task for good, and gives it nothing for good (Documentation/security/credentials.rst).
///
/// It does not say what the task may do meanwhile: its acts are decided by the credential that is
/// lent, which may permit more than its own or less.
pub fn overrides_leave_current()
    ensures { OverridesLeaveCurrent }
{}

/// A file stays open under its descriptor, with the credential that it was opened by, after each
/// event but the close of that descriptor: whatever its opener becomes, and when its opener is gone
/// (open(2); Linux's f_cred).
///
/// It does not say that the file itself stays as it was, nor that a check of it at a later time
/// would pass.
pub fn open_stays()
    ensures { OpenStays }
{}
