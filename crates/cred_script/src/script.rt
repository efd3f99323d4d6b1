//! Scripts, and their lines.
ghost use Rattle.std.specs.Prelude.{◌≡◌, ◌≤◌, ◌<◌, All, AllPairs, IfSome, Some, length, slice_get};
ghost use Rattle.std.specs.Option.{option_map};
ghost use Rattle.cred_ids.specs.Limits.{LINE_LIMIT, FILES};
ghost use Rattle.cred_ids.specs.Limits.{LAST_LANE};
ghost use Rattle.cred_model.specs.Named.{IsContentOf};
ghost use Rattle.cred_model.specs.FileChanges.{FixesFiles};
ghost use Rattle.cred_model.specs.Script.{SetupFirst, chain_in, reaches};
ghost use Rattle.cred_script.specs.Files as spec;
ghost use Rattle.cred_script.specs.Lanes.{lanes};
ghost use Rattle.cred_script.specs.Lines.{line_at, line_seen};
ghost use Rattle.cred_script.specs.Sound.{AreApart, IsSoundLine, IsSoundScript};

use crate::files::DeclaredFiles;
use cred_event::Content;
use cred_ids::Id;
use cred_names::Namespaces;
use cred_record::FileInfo;
use std::marker::Model;

/// One line of a script.
#[derive(Drop)]
pub struct ScriptLine {
    /// Its lane, from 1 to 16, and 0 in the setup.
    pub lane: u32,
    /// What it holds.
    pub content: Content,
}

impl Model for ScriptLine {
    ghost use Rattle.cred_model.specs.Script.{Line};

    ghost Value = { Line };

    ghost view = { λ l. record { lane = l.lane; content = l.content } };
}

/// A script. Its lines are numbered from 1; there are at most 20,000, and at most 256 files.
#[derive(Drop)]
pub struct Script {
    files: DeclaredFiles,
    namespaces: Namespaces,
    lines: Vec<ScriptLine>,
}

impl Model for Script {
    ghost use Rattle.std.specs.Prelude.{length};
    ghost use Rattle.cred_model.specs.Script.{Script};
    ghost use Rattle.cred_script.specs.Sound.{IsSoundScript};

    ghost Value = { Script };

    ghost view = { λ s. record {
      files = s.files;
      namespaces = s.namespaces;
      lines = s.lines.items;
    } };

    ghost invariant = { λ s. IsSoundScript (length s.files) s.namespaces s.lines.items };
}

impl Script {
    /// The script of these files, namespaces and lines.
    pub fn new(files: DeclaredFiles, namespaces: Namespaces, lines: Vec<ScriptLine>) -> Script
        requires { IsSoundScript (length files) namespaces lines.items }
        ensures value { result
            ≡ record { files = files; namespaces = namespaces; lines = lines.items } }
        ensures setup { SetupFirst result }
        ensures fixed { FixesFiles result }
    {
        Script {
            files,
            namespaces,
            lines,
        }
    }

    /// The files that it declares, in the order of the lines that declare them.
    pub fn files(&self) -> &DeclaredFiles
        ensures { result.now ≡ self.now.files }
    {
        &self.files
    }

    /// How many lines there are. The setup's come before all others, and those that change a file
    /// are among them.
    pub fn lines(&self) -> u32
        ensures count { result ≡ length self.now.lines }
        ensures few { result ≤ LINE_LIMIT }
        ensures setup { SetupFirst self.now }
        ensures fixed { FixesFiles self.now }
    {
        self.lines.len() as u32
    }

    /// The greatest number of a lane that a lane line names, from 1 to 16; 0 where there is none,
    /// and all lines are the setup's. The setup apart, no task acts by lines of two lanes, and no
    /// label stands in two.
    pub fn lanes(&self) -> u32
        ensures greatest { result ≡ lanes self.now.lines }
        ensures few { result ≤ LAST_LANE }
        ensures setup { result ≡ 0 → All (λ line. line.lane ≡ 0) self.now.lines }
        ensures apart { AllPairs AreApart self.now.lines }
        ensures lines { length self.now.lines ≤ LINE_LIMIT }
    {
        greatest_lane(&self.lines)
    }

    /// The name of the file at this place, counted from 0 in the order of the lines that declare
    /// them; none past the last. No other file has it.
    pub fn name(&self, place: u32) -> Option<&str>
        ensures name { option_map (λ name. name.now) result
            ≡ option_map (λ file. file.name) (slice_get self.now.files place) }
        ensures own { IfSome result (λ name. spec.file_place self.now.files name.now ≡ Some place) }
    {
        self.files.name(place)
    }

    /// What checks and execve see of the file at this place, counted from 0; none past the last.
    pub fn file(&self, place: u32) -> Option<&FileInfo>
        ensures { option_map (λ info. info.now) result
            ≡ option_map (λ file. file.info) (slice_get self.now.files place) }
    {
        self.files.info(place)
    }

    /// The place of the file of this name, from 0 to 255; none for a name that isn't declared.
    pub fn place_of(&self, name: &str) -> Option<u32>
        ensures place { result ≡ spec.file_place self.now.files name.now }
        ensures few { IfSome result (λ place. place < FILES) }
    {
        self.files.place_of(name)
    }

    /// The root ids of a user namespace and of its ancestors, its own first (user_namespaces(7));
    /// none for a number that isn't declared. Namespace 0, the initial one, is always declared.
    pub fn chain(&self, ns: u32) -> Option<&[Id]>
        ensures { option_map (λ chain. chain.now) result ≡ chain_in self.now.namespaces ns }
    {
        self.namespaces.chain(ns)
    }

    /// Whether the outer user namespace is the inner one or an ancestor of it: then what a task of
    /// the outer one is capable of it is capable of in the inner one too (user_namespaces(7)).
    pub fn reaches(&self, outer: u32, inner: u32) -> bool
        ensures { result ≡ reaches self.now.namespaces outer inner }
    {
        self.namespaces.reaches(outer, inner)
    }

    /// The lane and the content of the line of this number; none for 0 and past the last line.
    pub fn line(&self, number: u32) -> Option<(u32, &Content)>
        ensures found { option_map line_seen result ≡ line_at self.now number }
        ensures few { IfSome result (λ _. number ≤ LINE_LIMIT) }
        ensures sound { IfSome result
            (λ found. IsSoundLine (length self.now.files) self.now.namespaces (line_seen found)) }
        ensures kind { IfSome result (λ found.
            IsContentOf (length self.now.files) self.now.namespaces (line_seen found).content) }
    {
        let place = number.checked_sub(1)?;
        let line = self.lines.get(place as usize)?;
        Some((line.lane, &line.content))
    }
}

/// The greatest lane of these lines, 0 where there are none.
fn greatest_lane(lines: &[ScriptLine]) -> u32
    ensures { result ≡ lanes lines.now }
{
    let mut greatest = 0;
    for line in lines {
        greatest = greatest.max(line.lane);
    }
    greatest
}
