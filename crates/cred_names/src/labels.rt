//! The labels that a line names.
ghost use Rattle.std.specs.Prelude.{◌≡◌, []};
ghost use Rattle.std.specs.List.{cons_option};
ghost use Rattle.cred_names.specs.Labels as spec;

use cred_event::{Content, Event};

/// The labels that a line names, which are two at most.
pub(crate) fn labels_of(content: &Content) -> (Option<u32>, Option<u32>)
    ensures { spec.labels content.now ≡ cons_option result.0 (cons_option result.1 []) }
{
    match content {
        Content::One(event) => event_labels(event),
        _ => (None, None),
    }
}

/// The labels that an event names.
fn event_labels(event: &Event) -> (Option<u32>, Option<u32>)
    ensures { spec.event_labels event.now ≡ cons_option result.0 (cons_option result.1 []) }
{
    match event {
        Event::Prepare { label, hold, .. } => (Some(*label), Some(*hold)),
        Event::Signal { hold, target, .. } | Event::Ptrace { hold, target, .. } => {
            (Some(*hold), Some(*target))
        }
        Event::Take { label, .. }
        | Event::TakeFile { label, .. }
        | Event::Release { label }
        | Event::Ask { label, .. }
        | Event::Alter { label, .. }
        | Event::Commit { label }
        | Event::Abort { label }
        | Event::Override { label, .. }
        | Event::OpenFile { hold: label, .. }
        | Event::Chown { hold: label, .. }
        | Event::Chmod { hold: label, .. }
        | Event::SetAttr { hold: label, .. }
        | Event::Stat { hold: label, .. } => (Some(*label), None),
        _ => (None, None),
    }
}
