//! Checks by the real ids (access(2)).
ghost use Rattle.std.specs.Prelude.{◌≡◌, IfOk};
ghost use Rattle.cred_caps.specs.Caps.{IsWithin};
ghost use Rattle.cred_rules.specs.Access.{access_effective, access_credential};

use cred_caps::{CapSet, Flag};
use cred_ids::NoMemory;
use cred_record::{Cred, copy};

/// The effective set that access(2) asks by.
#[tactic(auto, using(cred_caps::proofs::SetLaws::within))]
fn access_effective(cred: &Cred) -> CapSet
    ensures value { result ≡ access_effective cred.now }
    ensures permitted { IsWithin result cred.now.perm }
{
    if cred.bits.flag(Flag::NoSetuidFixup) {
        cred.eff
    } else if cred.is_root(cred.uid.real) {
        cred.perm
    } else {
        CapSet::empty()
    }
}

/// The credential that access(2) asks by, for a program that acts with more rights than the user
/// who called it: the filesystem ids are the real ids, and the effective set is the permitted one
/// if the real user id is root, else empty. With NO_SETUID_FIXUP the effective set stays. All else
/// is as in `cred`, which stays as it is.
///
/// # Errors
///
/// `NoMemory` if the groups could not be copied.
#[tactic(auto, unfolding(cred_rules::specs::Access::access_credential))]
pub fn access_cred(cred: &Cred) -> Result<Cred, NoMemory>
    ensures { IfOk result (λ new. new ≡ access_credential cred.now) }
{
    let mut new = copy(cred)?;
    new.uid.fs = cred.uid.real;
    new.gid.fs = cred.gid.real;
    new.eff = access_effective(cred);
    Ok(new)
}
