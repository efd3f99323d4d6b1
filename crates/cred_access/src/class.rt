//! The three classes of tasks for which a file has permission bits.
ghost use Rattle.std.specs.Prelude.{◌≡◌, ◌≤◌};
ghost use Rattle.cred_record.specs.Credential.{Credential};
ghost use Rattle.cred_access.specs.Class.{class_place};
ghost use Rattle.cred_rules.specs.Access.{in_group, class_of};

use cred_ids::{Groups, Id, Ids4};
use cred_record::FileInfo;

/// A class of tasks, as a file's mode divides them (inode(7)).
#[derive(Clone, Copy, PartialEq, Eq, Debug)]
pub enum Class {
    /// The file's owner.
    Owner,
    /// The members of its group.
    Group,
    /// All others.
    Others,
}

impl Class {
    /// The place in a mode of the class's execute bit. Its write bit and its read bit are the next
    /// two.
    pub fn place(self) -> u32
        ensures value { result ≡ class_place self }
        ensures small { result ≤ 6 }
    {
        match self {
            Class::Owner => 6,
            Class::Group => 3,
            Class::Others => 0,
        }
    }
}

/// Whether the group is the task's filesystem group or one of its supplementary groups.
pub fn has_group(gid: &Ids4, groups: &Groups, group: Id) -> bool
    ensures { (cred : Credential) → cred.gid ≡ gid.now → cred.groups ≡ groups.now
        → result ≡ in_group cred group }
{
    gid.fs == group || groups.items().contains(&group)
}

/// The one class of the file that a task with these ids and groups is in.
pub fn class_of(uid: &Ids4, gid: &Ids4, groups: &Groups, file: &FileInfo) -> Class
    ensures { (cred : Credential) → cred.uid ≡ uid.now → cred.gid ≡ gid.now
        → cred.groups ≡ groups.now → class_place result ≡ class_of cred file.now }
{
    if uid.fs == file.owner {
        Class::Owner
    } else if has_group(gid, groups, file.group) {
        Class::Group
    } else {
        Class::Others
    }
}
