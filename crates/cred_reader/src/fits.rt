//! Whether the files and the namespaces that an event names are a script's.
ghost use Rattle.std.specs.Prelude.{◌↔◌, IsSome, IsTrue};
ghost use Rattle.cred_model.specs.Script.{chain_in};
ghost use Rattle.cred_reader.specs.Fits as spec;

use cred_event::{Change, Event, Query};
use cred_script::Script;
use cred_spelling::name_of;

/// Whether the script declares a file at this place, with a valid name.
fn is_file(script: &Script, place: u32) -> bool
    ensures { IsTrue result ↔ spec.IsFile script.now place }
{
    match script.name(place) {
        Some(name) => name_of(name.as_bytes()).is_ok(),
        None => false,
    }
}

/// Whether the script has this namespace.
fn is_declared(script: &Script, ns: u32) -> bool
    ensures { IsTrue result ↔ IsSome (chain_in script.now.namespaces ns) }
{
    script.chain(ns).is_some()
}

/// Whether the files and the namespaces that the event names are the script's.
pub(crate) fn is_of(script: &Script, event: &Event) -> bool
    ensures { IsTrue result ↔ spec.IsOf script.now event.now }
{
    match event {
        Event::Init { ns, .. } => is_declared(script, *ns),
        Event::Ask {
            query: Query::Check { file, .. },
            ..
        } => is_file(script, *file),
        Event::Alter {
            change: Change::Exec { file },
            ..
        } => is_file(script, *file),
        Event::OpenFile { file, .. }
        | Event::Chown { file, .. }
        | Event::Chmod { file, .. }
        | Event::SetAttr { file, .. }
        | Event::Stat { file, .. } => is_file(script, *file),
        _ => true,
    }
}
