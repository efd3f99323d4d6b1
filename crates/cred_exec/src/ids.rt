//! The ids of the task after execve.
ghost use Rattle.std.specs.Prelude.{◌≡◌};
ghost use Rattle.cred_rules.specs.Exec.{user_after, group_after, ids_after};

use crate::attribute::{sets_group, sets_user};
use cred_ids::{Id, Ids4};
use cred_record::{Cred, FileInfo};

/// The new effective user id: the owner of a file whose set-user-ID bit is in force.
pub fn user_after(cred: &Cred, file: &FileInfo) -> Id
    ensures { result ≡ user_after cred.now file.now }
{
    if sets_user(cred, file) {
        file.owner
    } else {
        cred.uid.effective
    }
}

/// The new effective group id: the group of a file whose set-group-ID bit is in force.
pub fn group_after(cred: &Cred, file: &FileInfo) -> Id
    ensures { result ≡ group_after cred.now file.now }
{
    if sets_group(cred, file) {
        file.group
    } else {
        cred.gid.effective
    }
}

/// The ids with this effective one, copied to the saved and the filesystem id.
pub fn ids_after(ids: Ids4, effective: Id) -> Ids4
    ensures { result ≡ ids_after ids effective }
{
    Ids4 {
        real: ids.real,
        effective,
        saved: effective,
        fs: effective,
    }
}
