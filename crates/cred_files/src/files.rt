//! The table of open files.
ghost use Rattle.std.specs.Prelude.{◌≡◌, ◌<◌, not, nat_lt, is_some, [], ◌∷◌, ◌++◌, length, None};
ghost use Rattle.std.specs.Prelude.{MatchOption, OnOk, OnErr};
ghost use Rattle.std.specs.Option.{option_map};
ghost use Rattle.cred_ids.specs.Limits.{OPEN_FILES};
ghost use Rattle.cred_files.specs.Open.{AreOpen, file_as, file_under, descriptor_place, Closes};

use crate::file_description::FileDescription;
use cred_ids::{NoMemory, limits};
use indexmap::IndexMap;
use std::alloc::Global;
use std::marker::Model;

/// The open files: at most 256, no two at one descriptor. A descriptor is a number of the whole
/// system. Contracts see the list of the files, in the order in which they were opened.
#[derive(Drop, Debug)]
pub struct Files {
    files: IndexMap<u32, FileDescription>,
}

impl Model for Files {
    ghost use Rattle.std.specs.Prelude.{List};
    ghost use Rattle.cred_model.specs.State.{OpenFile};
    ghost use Rattle.cred_files.specs.Open.{open_files, AreOpen};

    ghost Value = { List OpenFile };

    ghost view = { λ f. open_files f.files.entries };

    ghost invariant = { λ f. AreOpen (open_files f.files.entries) };
}

impl Files {
    /// No file. No memory is taken.
    pub fn new(alloc: Global) -> Files
        ensures { result ≡ [] }
    {
        Files {
            files: IndexMap::new(alloc),
        }
    }

    /// Whether a file is open at a descriptor.
    pub fn has(&self, fd: u32) -> bool
        ensures { result ≡ is_some (file_under self.now fd) }
    {
        self.file(fd).is_some()
    }

    /// Whether as many files are open as may be.
    pub fn full(&self) -> bool
        ensures full { result ≡ not (nat_lt (length self.now) OPEN_FILES) }
        ensures files { AreOpen self.now }
    {
        self.files.len() >= limits::OPEN_FILES
    }

    /// The number of the credential that the file at a descriptor was opened by. `None` where none
    /// is open there.
    pub fn opener(&self, fd: u32) -> Option<u64>
        ensures { result ≡ option_map (λ f. f.opener) (file_under self.now fd) }
    {
        Some(self.file(fd)?.opener)
    }

    /// A file is opened at a descriptor, by the credential of this number (open(2)). `file` is its
    /// place among the script's files.
    ///
    /// # Errors
    ///
    /// `NoMemory` if an allocation fails: the open files are as they were.
    pub fn add(&mut self, fd: u32, opener: u64, file: u32) -> Result<(), NoMemory>
        requires new { file_under self.old fd ≡ None }
        requires room { length self.old < OPEN_FILES }
        ensures ok { OnOk result
            (self.new ≡ self.old ++ record { fd = fd; opener = opener; file = file } ∷ []) }
        ensures err { OnErr result (self.new ≡ self.old) }
    {
        self.files.insert(fd, FileDescription { opener, file })?;
        Ok(())
    }

    /// The file at a descriptor is closed (close(2)). Returns the number of the credential that it
    /// was opened by. `None` where none is open there, and then nothing changes.
    pub fn remove(&mut self, fd: u32) -> Option<u64>
        ensures { MatchOption result
            ((descriptor_place self.old fd ≡ None) × (self.new ≡ self.old))
            (λ opener. Closes self.old self.new fd opener) }
    {
        Some(self.files.shift_remove(&fd)?.opener)
    }

    /// What is kept of the file at a descriptor. `None` where none is open there.
    fn file(&self, fd: u32) -> Option<&FileDescription>
        ensures { option_map (λ f. file_as fd f.now) result ≡ file_under self.now fd }
    {
        self.files.get(&fd)
    }
}
