//! Which changes of a credential end that its task's process is dumpable.
ghost use Rattle.std.specs.Prelude.{◌≡◌};
ghost use Rattle.cred_record.specs.Credential.{Credential};
ghost use Rattle.cred_model.specs.Dumpable.{differs, is_gain};

use cred_ids::Ids4;
use cred_record::{Cred, Gains};

/// Whether an effective or a filesystem id of the new credential, of the user or of the group, is
/// another than the old one's: then the task's process is no longer dumpable (prctl(2)). Other
/// changes leave that flag.
pub fn differs(old: &Cred, new: &Cred) -> bool
    ensures { result ≡ differs old.now new.now }
{
    differs_by(&old.uid, &old.gid, &new.uid, &new.gid)
}

/// The same, by the ids of the two.
#[inline(always)]
pub fn differs_by(old_uid: &Ids4, old_gid: &Ids4, new_uid: &Ids4, new_gid: &Ids4) -> bool
    ensures { (old new : Credential) → old.uid ≡ old_uid.now → old.gid ≡ old_gid.now
        → new.uid ≡ new_uid.now → new.gid ≡ new_gid.now → result ≡ differs old new }
{
    !(old_uid.effective == new_uid.effective
        && old_uid.fs == new_uid.fs
        && old_gid.effective == new_gid.effective
        && old_gid.fs == new_gid.fs)
}

/// Whether an execve added to the permitted set: then the task's process isn't dumpable.
pub fn is_gain(gains: &Gains) -> bool
    ensures { result ≡ is_gain gains.now }
{
    !(gains.file.bits() == 0 && gains.inherit.bits() == 0 && gains.root.bits() == 0)
}
