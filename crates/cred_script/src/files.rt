//! The files that a script declares.
ghost use Rattle.std.specs.Prelude.{◌≡◌, ◌<◌, ◌≤◌, ◌∷◌, ◌++◌, [], IfSome, None, Some, OnErr, OnOk};
ghost use Rattle.std.specs.Prelude.{length, slice_get};
ghost use Rattle.std.specs.Option.{option_map};
ghost use Rattle.cred_ids.specs.Limits.{FILES};
ghost use Rattle.cred_script.specs.Files as spec;

use cred_ids::NoMemory;
use cred_record::FileInfo;
use indexmap::IndexMap;
use std::alloc::Global;
use std::marker::Model;

/// A file that a line declares.
#[derive(Drop)]
pub struct ScriptFile {
    /// Its name.
    pub name: String,
    /// What checks and execve see of it.
    pub info: FileInfo,
}

impl Model for ScriptFile {
    ghost use Rattle.std.specs.Prelude.{string_bytes};
    ghost use Rattle.cred_model.specs.Script.{NamedFile};

    ghost Value = { NamedFile };

    ghost view = { λ f. record { name = string_bytes f.name; info = f.info } };
}

/// The files that are declared, in the order of their lines. No two have one name, and there are at
/// most 256.
#[derive(Drop)]
pub struct DeclaredFiles {
    by_name: IndexMap<String, FileInfo>,
}

impl Model for DeclaredFiles {
    ghost use Rattle.std.specs.Prelude.{List};
    ghost use Rattle.cred_model.specs.Script.{NamedFile};
    ghost use Rattle.cred_script.specs.Kept.{AreFew, files_of};

    ghost Value = { List NamedFile };

    ghost view = { λ f. files_of f.by_name.entries };

    ghost invariant = { λ f. AreFew f.by_name.entries };
}

impl DeclaredFiles {
    /// No file.
    pub fn new(alloc: Global) -> DeclaredFiles
        ensures { result ≡ [] }
    {
        DeclaredFiles {
            by_name: IndexMap::new(alloc),
        }
    }

    /// How many there are, at most 256.
    pub fn len(&self) -> usize
        ensures count { result ≡ length self.now }
        ensures few { result ≤ FILES }
    {
        self.by_name.len()
    }

    /// The place of the file of this name, from 0 to 255; none for a name that isn't declared.
    #[inline(always)]
    pub fn place_of(&self, name: &str) -> Option<u32>
        ensures place { result ≡ spec.file_place self.now name.now }
        ensures few { IfSome result (λ place. place < FILES) }
    {
        Some(self.by_name.get_index_of(name)? as u32)
    }

    /// The name of the file at this place, counted from 0; none past the last. No other file has
    /// it.
    pub fn name(&self, place: u32) -> Option<&str>
        ensures name { option_map (λ name. name.now) result
            ≡ option_map (λ file. file.name) (slice_get self.now place) }
        ensures own { IfSome result (λ name. spec.file_place self.now name.now ≡ Some place) }
    {
        let (name, _) = self.by_name.get_index(place as usize)?;
        Some(name)
    }

    /// What checks and execve see of the file at this place, counted from 0; none past the last.
    pub fn info(&self, place: u32) -> Option<&FileInfo>
        ensures { option_map (λ info. info.now) result
            ≡ option_map (λ file. file.info) (slice_get self.now place) }
    {
        let (_, info) = self.by_name.get_index(place as usize)?;
        Some(info)
    }

    /// Adds a file, as the last one.
    ///
    /// # Errors
    ///
    /// `NoMemory` where there is no memory for it; then nothing changes.
    pub fn add(&mut self, file: ScriptFile) -> Result<(), NoMemory>
        requires room { length self.old < FILES }
        requires new { spec.file_place self.old file.name ≡ None }
        ensures ok { OnOk result (self.new ≡ self.old ++ file ∷ []) }
        ensures err { OnErr result (self.new ≡ self.old) }
    {
        self.by_name.insert(file.name, file.info)?;
        Ok(())
    }
}
