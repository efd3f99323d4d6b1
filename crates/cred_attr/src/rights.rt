//! What a task may change by its ids.
ghost use Rattle.std.specs.Prelude.{◌≡◌};
ghost use Rattle.cred_rules.specs.Access.{in_group};
ghost use Rattle.cred_rules.specs.Files.{owns_file};

use cred_access::has_group;
use cred_ids::Id;
use cred_record::{Cred, FileInfo};

/// Whether the task is the file's owner, as it reaches files (setfsuid(2)).
pub fn owns(cred: &Cred, file: &FileInfo) -> bool
    ensures { result ≡ owns_file cred.now file.now }
{
    file.owner == cred.uid.fs
}

/// Whether the group is the task's filesystem group or one of its supplementary groups.
pub fn in_group(cred: &Cred, group: Id) -> bool
    ensures { result ≡ in_group cred.now group }
{
    has_group(&cred.gid, &cred.groups, group)
}
