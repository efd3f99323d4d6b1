//! What a book of a script has before anything has run.
ghost use Rattle.std.specs.Prelude.{◌≡◌, ◌≤◌, ◌+◌, [], length, replicate, None, IfOk, OnOk};
ghost use Rattle.cred_ids.specs.Limits.{LAST_LANE, LINE_LIMIT};
ghost use Rattle.cred_model.specs.FileChanges.{FixesFiles};
ghost use Rattle.cred_model.specs.Script.{SetupFirst};
ghost use Rattle.cred_model.specs.State.{opening};
ghost use Rattle.cred_script.specs.Lanes.{lanes};
ghost use Rattle.cred_course.specs.LaneCursors.{AreCursors};
ghost use Rattle.cred_book.specs.Counts.{AreEnded};
ghost use Rattle.cred_book.specs.Works.{AreNamedApart};

use crate::earlier::Earlier;
use crate::ended::lines_without_events;
use crate::journal::room_for_entries;
use crate::outs::none_out;
use cred_course::Cursors;
use cred_event::Entry;
use cred_hold::Cells;
use cred_ids::NoMemory;
use cred_script::Script;
use cred_state::State;
use std::alloc::Global;

/// What a book has before its first event, but for the script: the state, the cells under it, an
/// empty journal of one part, the cursors and the counts.
#[derive(Drop)]
pub(crate) struct Beginning {
    pub(crate) state: State,
    pub(crate) cells: Cells,
    pub(crate) earlier: Earlier,
    pub(crate) kept: Vec<Entry>,
    pub(crate) cursors: Cursors,
    pub(crate) ended: Vec<u32>,
    pub(crate) outs: Vec<Option<u32>>,
}

/// What a book of the script has before its first event. The script is only lent, so that it isn't
/// dropped on each way out of here.
///
/// # Errors
///
/// `NoMemory` if an allocation of the state, of the journal, of the cursors or of the counts fails.
pub(crate) fn begin(alloc: Global, script: &Script) -> Result<Beginning, NoMemory>
    ensures state { IfOk result (λ begun. begun.state.state ≡ opening script.now) }
    ensures own { IfOk result (λ begun. begun.state.words.id ≡ begun.cells) }
    ensures lent { IfOk result (λ begun. begun.state.words.out ≡ []) }
    ensures earlier { IfOk result (λ begun. begun.earlier ≡ []) }
    ensures kept { IfOk result (λ begun. begun.kept.items ≡ []) }
    ensures cursors { IfOk result (λ begun. AreCursors script.now [] begun.cursors) }
    ensures ended { IfOk result (λ begun. AreEnded script.now [] begun.ended.items) }
    ensures places { IfOk result (λ begun.
        length begun.ended.items ≡ lanes script.now.lines + 1) }
    ensures outs { IfOk result (λ begun.
        begun.outs.items ≡ replicate (lanes script.now.lines + 1) None) }
    ensures named { OnOk result (AreNamedApart script.now.lines) }
    ensures few { OnOk result (length script.now.lines ≤ LINE_LIMIT) }
    ensures lanes { OnOk result (lanes script.now.lines ≤ LAST_LANE) }
    ensures setup { OnOk result (SetupFirst script.now) }
    ensures fixed { OnOk result (FixesFiles script.now) }
{
    let cursors = Cursors::new(alloc, script)?;
    let ended = lines_without_events(alloc, script)?;
    let outs = none_out(alloc, script)?;
    let earlier = Earlier::none(alloc)?;
    let kept = room_for_entries(alloc, script)?;
    let (cells, state) = State::new(alloc, script)?;
    Ok(Beginning {
        state,
        cells,
        earlier,
        kept,
        cursors,
        ended,
        outs,
    })
}
