//! A file, as permission checks and execve see it.
ghost use Rattle.std.specs.Prelude.{◌≡◌, IfOk, OnErr, IsSome};

use cred_ids::{Bytes as Attr, Id, NoMemory};
use std::marker::Model;

/// The kinds of files that the rules tell apart (inode(7)).
#[derive(Clone, Copy, PartialEq, Eq, Debug)]
pub enum FileKind {
    /// A regular file, which may be executed.
    Regular,
    /// A directory, whose execute bits let it be searched.
    Directory,
}

/// A file (inode(7)). Contracts see the record `File` of `specs/File.antt`, with the same fields.
#[derive(Drop, Debug)]
pub struct FileInfo {
    /// Its kind.
    pub kind: FileKind,
    /// Its owner.
    pub owner: Id,
    /// Its group.
    pub group: Id,
    /// Its permission, set-user-ID, set-group-ID and sticky bits: at most octal 7777.
    pub mode: u16,
    /// Whether its file system is mounted with `nosuid`, so that set-id bits and capabilities have
    /// no effect.
    pub nosuid: bool,
    /// Its capability attribute, if it has one, well formed or not.
    pub attr: Option<Attr>,
}

impl Model for FileInfo {
    ghost use Rattle.cred_record.specs.File.{File, IsMode};

    ghost Value = { File };

    ghost view = { λ f. record {
      kind = f.kind;
      owner = f.owner;
      group = f.group;
      mode = f.mode;
      nosuid = f.nosuid;
      attr = f.attr;
    } };

    ghost invariant = { λ f. IsMode f.mode };
}

/// An equal attribute, or none.
///
/// # Errors
///
/// `NoMemory` where its bytes could not be copied.
pub fn copy_attr(attr: &Option<Attr>) -> Result<Option<Attr>, NoMemory>
    ensures equal { IfOk result (λ copied. copied ≡ attr.now) }
    ensures refusal { OnErr result (IsSome attr.now) }
{
    match attr {
        Some(bytes) => Ok(Some(bytes.copy()?)),
        None => Ok(None),
    }
}
