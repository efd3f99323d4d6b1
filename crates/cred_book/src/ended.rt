//! How many lines have ended before anything has run.
ghost use Rattle.std.specs.Prelude.{◌≡◌, ◌≤◌, ◌+◌, [], length, IfOk, OnOk};
ghost use Rattle.cred_ids.specs.Limits.{LAST_LANE, LINE_LIMIT};
ghost use Rattle.cred_model.specs.FileChanges.{FixesFiles};
ghost use Rattle.cred_model.specs.Script.{SetupFirst};
ghost use Rattle.cred_script.specs.Lanes.{lanes};
ghost use Rattle.cred_book.specs.Counts.{AreEnded};
ghost use Rattle.cred_book.specs.Works.{AreNamedApart};

use cred_course::Course;
use cred_ids::NoMemory;
use cred_script::Script;
use std::alloc::Global;

/// For each lane of a script, from 0 to the last, how many of its lines make no event at all. Such
/// a line has ended before the first event.
///
/// # Errors
///
/// `NoMemory` if the list could not be allocated.
pub(crate) fn lines_without_events(alloc: Global, script: &Script) -> Result<Vec<u32>, NoMemory>
    ensures ended { IfOk result (λ ended. AreEnded script.now [] ended.items) }
    ensures places { IfOk result (λ ended. length ended.items ≡ lanes script.now.lines + 1) }
    ensures named { OnOk result (AreNamedApart script.now.lines) }
    ensures few { length script.now.lines ≤ LINE_LIMIT }
    ensures lanes { lanes script.now.lines ≤ LAST_LANE }
    ensures setup { SetupFirst script.now }
    ensures fixed { FixesFiles script.now }
{
    // What counts a script's lines says of them too that the setup's come first, and that those
    // that change a file are among them; what counts its lanes, that no label stands in two.
    let _ = script.lines();
    let mut ended: Vec<u32> = vec![in alloc; 0; script.lanes() as usize + 1]?;
    let mut number = 1;
    'lines: while let Some((lane, content)) = script.line(number) {
        if Course::start(number, content).ended() {
            ended[lane as usize] += 1;
        }
        number += 1;
    }
    Ok(ended)
}
