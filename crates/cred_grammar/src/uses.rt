//! The files and the namespaces that a line names, and whether it changes a file.
ghost use Rattle.std.specs.Prelude.{◌≡◌, []};
ghost use Rattle.std.specs.List.{cons_option};
ghost use Rattle.cred_model.specs.FileChanges as changing;
ghost use Rattle.cred_model.specs.Named as named;
ghost use Rattle.cred_grammar.specs.Reading as spec;

use cred_event::{Change, Content, Event, FileCall, Query};
use cred_names::{Lanes, Namespaces};
use cred_script::DeclaredFiles;

/// Whether each namespace that the line names is declared.
pub(crate) fn has_namespaces(declared: &Namespaces, content: &Content) -> bool
    ensures { result ≡ spec.has_namespaces declared.now content.now }
{
    match content {
        Content::One(Event::Init { ns, .. }) => declared.has(*ns),
        _ => true,
    }
}

/// Whether each file that the line names is declared.
pub(crate) fn has_files(declared: &DeclaredFiles, content: &Content) -> bool
    ensures { result ≡ spec.has_files declared.now content.now }
{
    match named_file(content) {
        Some(file) => (file as usize) < declared.len(),
        None => true,
    }
}

/// Whether the line changes no file, or belongs to the setup.
pub(crate) fn may_change(lanes: &Lanes, content: &Content) -> bool
    ensures { result ≡ spec.may_change lanes.now content.now }
{
    lanes.current() == 0 || !changes_file(content)
}

/// Whether the line changes a file.
fn changes_file(content: &Content) -> bool
    ensures { result ≡ changing.line_changes content.now }
{
    matches!(
        content,
        Content::One(Event::Chown { .. } | Event::Chmod { .. } | Event::SetAttr { .. })
            | Content::OnFile {
                call: FileCall::Chown { .. } | FileCall::Chmod { .. } | FileCall::SetAttr { .. },
                ..
            }
    )
}

/// The file that a line names, by its place. No line names two.
fn named_file(content: &Content) -> Option<u32>
    ensures { named.files content.now ≡ cons_option result [] }
{
    match content {
        Content::Question {
            query: Query::Check { file, .. },
            ..
        }
        | Content::One(
            Event::Ask {
                query: Query::Check { file, .. },
                ..
            }
            | Event::Alter {
                change: Change::Exec { file },
                ..
            }
            | Event::OpenFile { file, .. }
            | Event::Chown { file, .. }
            | Event::Chmod { file, .. }
            | Event::SetAttr { file, .. }
            | Event::Stat { file, .. },
        )
        | Content::Open { file, .. }
        | Content::OnFile {
            call: FileCall::Chown { file, .. }
            | FileCall::Chmod { file, .. }
            | FileCall::SetAttr { file, .. }
            | FileCall::Stat { file },
            ..
        }
        | Content::Change {
            change: Change::Exec { file },
            ..
        }
        | Content::Access { file, .. } => Some(*file),
        _ => None,
    }
}
