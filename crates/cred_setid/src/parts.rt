//! What the calls that set ids look at of a credential.
ghost use Rattle.std.specs.Prelude.{◌≡◌};
ghost use Rattle.cred_setid.specs.Parts.{parts_of};

use cred_caps::{CapSet, SecureBits};
use cred_ids::{Id, Ids4};
use cred_record::Cred;

/// What the calls that set ids look at and change of a credential, but for its groups. They take no
/// memory.
#[derive(Clone, Copy)]
pub struct IdParts {
    /// The user ids.
    pub uid: Ids4,
    /// The group ids.
    pub gid: Ids4,
    /// The permitted set.
    pub perm: CapSet,
    /// The effective set.
    pub eff: CapSet,
    /// The ambient set.
    pub amb: CapSet,
    /// The securebits. No call changes them.
    pub bits: SecureBits,
    /// The user id of root in the task's user namespace. No call changes it.
    pub root: Id,
}

/// The parts of a credential.
#[inline(always)]
pub(crate) fn parts_of(cred: &Cred) -> IdParts
    ensures { result ≡ parts_of cred.now }
{
    IdParts {
        uid: cred.uid,
        gid: cred.gid,
        perm: cred.perm,
        eff: cred.eff,
        amb: cred.amb,
        bits: cred.bits,
        root: cred.root,
    }
}
