//! One line of a run in order.
ghost use Rattle.std.specs.Prelude.{◌≡◌, ◌<◌, ◌+◌, [], length, OnOk};
ghost use Rattle.cred_commands.specs.Order.{HasRun, RunsOn};

use cred_course::Course;
use cred_event::Entry;
use cred_hold::Cells;
use cred_ids::NoMemory;
use cred_script::Script;
use cred_state::State;

/// Runs the next line to its end, the one after the `past` lines that have run, and appends its
/// entries.
///
/// # Errors
///
/// `NoMemory` if an allocation of an event, of the state or of an entry fails.
pub fn run_line(
    state: &mut State,
    cells: &Cells,
    script: &Script,
    past: u32,
    entries: &mut Vec<Entry>,
) -> Result<(), NoMemory>
    requires own { state.old.words.id ≡ cells.now }
    requires out { state.old.words.out ≡ [] }
    requires within { past < length script.now.lines }
    requires run { HasRun script.now past state.old.state }
    ensures runs { OnOk result (RunsOn script.now past state.old.state state.new.state
        entries.old.items entries.new.items) }
    ensures words { state.new.words ≡ state.old.words }
{
    // Called for its clause alone: no script has more lines than the limit, so there is a next
    // number.
    let _ = script.lines();
    let number = past + 1;
    let Some((_, content)) = script.line(number) else {
        return Ok(());
    };
    let mut course = Course::start(number, content);
    'events: while let Some(event) = course.event(content)? {
        entries.reserve(1)?;
        // The answer is written to its place at once, and read there.
        let place = entries.len();
        entries.push_reserved(Entry {
            line: number,
            answer: state.step(cells, script, number, &event)?,
            event,
        });
        course.advance(content, &entries[place].answer);
    }
    Ok(())
}
