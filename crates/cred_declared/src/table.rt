//! The files of a run, as they stand.
ghost use Rattle.std.specs.Prelude.{◌≡◌, ◌<◌, ◌∷◌, ◌++◌, [], IfOk, OnOk, OnErr, length, slice_get};
ghost use Rattle.std.specs.Prelude.{slice_set};
ghost use Rattle.std.specs.Option.{option_copied};

use cred_ids::NoMemory;
use cred_record::{FileInfo, copy_attr};
use std::alloc::Global;
use std::marker::Model;

/// The files of a run as they stand, by the places of their declarations. Contracts see the list.
#[derive(Drop, Debug)]
pub struct FileTable {
    files: Vec<FileInfo>,
}

impl Model for FileTable {
    ghost use Rattle.std.specs.Prelude.{List};
    ghost use Rattle.cred_record.specs.File.{File};

    ghost Value = { List File };

    ghost view = { λ t. t.files.items };
}

/// An equal file in memory of its own.
///
/// # Errors
///
/// `NoMemory` if the allocation of the copy fails.
fn copy(file: &FileInfo) -> Result<FileInfo, NoMemory>
    ensures { IfOk result (λ copy. copy ≡ file.now) }
{
    Ok(FileInfo {
        kind: file.kind,
        owner: file.owner,
        group: file.group,
        mode: file.mode,
        nosuid: file.nosuid,
        attr: copy_attr(&file.attr)?,
    })
}

impl FileTable {
    /// A table of equal files.
    ///
    /// # Errors
    ///
    /// `NoMemory` if an allocation of the files fails.
    pub fn of(alloc: Global, files: &[FileInfo]) -> Result<FileTable, NoMemory>
        ensures { IfOk result (λ table. table ≡ files.now) }
    {
        let mut copies = Vec::with_capacity(alloc, files.len())?;
        for file in files {
            copies.push(copy(file)?)?;
        }
        Ok(FileTable { files: copies })
    }

    /// No file.
    pub fn new(alloc: Global) -> FileTable
        ensures { result ≡ [] }
    {
        FileTable {
            files: Vec::new(alloc),
        }
    }

    /// Adds an equal file, as the last one.
    ///
    /// # Errors
    ///
    /// `NoMemory` if there is no memory for it; then nothing changes.
    pub fn add(&mut self, file: &FileInfo) -> Result<(), NoMemory>
        ensures ok { OnOk result (self.new ≡ self.old ++ file.now ∷ []) }
        ensures err { OnErr result (self.new ≡ self.old) }
    {
        let file = copy(file)?;
        self.files.push(file)?;
        Ok(())
    }

    /// The file at a place. `None` exactly past the last one.
    pub fn file(&self, place: u32) -> Option<&FileInfo>
        ensures { option_copied result ≡ slice_get self.now place }
    {
        self.files.get(place as usize)
    }

    /// Puts a file in the place of another.
    pub fn replace(&mut self, place: u32, file: FileInfo)
        requires { place < length self.old }
        ensures { self.new ≡ slice_set self.old place file }
    {
        self.files[place as usize] = file;
    }
}
