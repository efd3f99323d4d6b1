//! The files of a run: those that its script declares, the one that an event names, and what may be
//! done with it; the chain of a user namespace.
ghost use Rattle.std.specs.Prelude.{◌≡◌, ◌∷◌, [], IfOk, if◌then◌else◌};
ghost use Rattle.std.specs.Option.{option_map};
ghost use Rattle.cred_model.specs.Answers.{checked};
ghost use Rattle.cred_model.specs.Named.{change_files, event_files, query_files};
ghost use Rattle.cred_model.specs.Script.{chain_of, inodes_of, root_of};
ghost use Rattle.cred_model.specs.State.{info_of};

use crate::table::FileTable;
use cred_access::may;
use cred_event::{Answer, Change, Event, Query};
use cred_ids::{Id, NoMemory};
use cred_record::{Cred, FileInfo, Want};
use cred_script::Script;
use std::alloc::Global;

/// A table of the files that a script declares, as it declares them.
///
/// # Errors
///
/// `NoMemory` if there is no memory for the table.
pub fn declared_files(alloc: Global, script: &Script) -> Result<FileTable, NoMemory>
    ensures { IfOk result (λ files. files ≡ inodes_of script.now) }
{
    let mut files = FileTable::new(alloc);
    for place in 0..script.files().len() as u32 {
        if let Some(file) = script.file(place) {
            files.add(file)?;
        }
    }
    Ok(files)
}

/// The file that a question names, as it stands. `None` where it names none.
pub fn asked_file(files: &FileTable, query: Query) -> Option<&FileInfo>
    ensures { option_map (λ file. file.now) result ≡ info_of files.now (query_files query) }
{
    match query {
        Query::Check { file, .. } => files.file(file),
        _ => None,
    }
}

/// The file that a change names, as it stands. `None` where it names none.
pub fn executed_file(files: &FileTable, change: Change) -> Option<&FileInfo>
    ensures { option_map (λ file. file.now) result ≡ info_of files.now (change_files change) }
{
    match change {
        Change::Exec { file } => files.file(file),
        _ => None,
    }
}

/// The file that an event names, as it stands. `None` where it names none.
pub fn event_file<'f>(files: &'f FileTable, event: &Event) -> Option<&'f FileInfo>
    ensures { option_map (λ file. file.now) result ≡ info_of files.now (event_files event.now) }
{
    match event {
        Event::Ask { query, .. } => asked_file(files, *query),
        Event::Alter { change, .. } => executed_file(files, *change),
        Event::OpenFile { file, .. }
        | Event::Chown { file, .. }
        | Event::Chmod { file, .. }
        | Event::SetAttr { file, .. }
        | Event::Stat { file, .. } => files.file(*file),
        _ => None,
    }
}

/// Whether a credential may open a file so, as it stands (open(2)).
pub fn may_open(files: &FileTable, cred: &Cred, file: u32, want: Want) -> bool
    ensures { checked cred.now (info_of files.now (file ∷ [])) want
        ≡ (if result then Answer.Done else Answer.Eacces) }
{
    match files.file(file) {
        Some(file) => may(cred, file, want),
        None => false,
    }
}

/// The root ids of a namespace and of its ancestors, its own first (user_namespaces(7)). Empty for
/// a namespace that isn't declared.
pub fn chain_of(script: &Script, ns: u32) -> &[Id]
    ensures { result.now ≡ chain_of script.now ns }
{
    match script.chain(ns) {
        Some(chain) => chain,
        None => &[],
    }
}

/// The user id of root in a namespace, which is the first of its root ids (user_namespaces(7)). For
/// a namespace that isn't declared it is that of the initial one.
pub fn root_of(script: &Script, ns: u32) -> Id
    ensures { result ≡ root_of script.now ns }
{
    match chain_of(script, ns).first() {
        Some(root) => *root,
        // 0 is an id.
        None => Id::new(0).unwrap(),
    }
}
