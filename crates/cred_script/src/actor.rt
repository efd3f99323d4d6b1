//! The task that acts by an event.
ghost use Rattle.std.specs.Prelude.{◌≡◌};
ghost use Rattle.cred_script.specs.Acting as spec;

use cred_event::Event;

/// The task that an event names as one that calls, prepares, overrides, reverts or begins.
pub fn event_actor(event: &Event) -> Option<u32>
    ensures { result ≡ spec.event_actor event.now }
{
    match event {
        Event::Prepare { task, .. }
        | Event::Override { task, .. }
        | Event::Revert { task }
        | Event::Begin { task, .. }
        | Event::Spawn { task, .. }
        | Event::Fork { task, .. }
        | Event::Dumpable { task, .. }
        | Event::Dumped { task }
        | Event::Raw { task, .. }
        | Event::Exit { task } => Some(*task),
        _ => None,
    }
}
