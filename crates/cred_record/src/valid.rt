//! That a value of `Cred` is a credential, for the proofs of callers. There is nothing to run.
ghost use Rattle.std.specs.Prelude.{◌≡◌, true};
ghost use Rattle.cred_record.specs.Words.{are_ids, IsCredential};

use crate::cred::Cred;
use cred_ids::Ids4;

/// The four are ids.
fn are_ids(ids: &Ids4)
    ensures { are_ids ids.now ≡ true }
{
    let _ = (
        ids.real.number(),
        ids.effective.number(),
        ids.saved.number(),
        ids.fs.number(),
    );
}

/// What a `Cred` holds is a credential.
pub fn is_credential(cred: &Cred)
    ensures { IsCredential cred.now }
{
    are_ids(&cred.uid);
    are_ids(&cred.gid);
    cred.groups.are_groups();
    let _ = (
        cred.perm.bits(),
        cred.inh.bits(),
        cred.eff.bits(),
        cred.bound.bits(),
        cred.amb.bits(),
        cred.bits.number(),
        u64::from(cred.ns),
        cred.root.number(),
    );
}
