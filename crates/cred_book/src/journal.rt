//! The parts of a journal.
ghost use Rattle.std.specs.Prelude.{◌≡◌, [], IfOk};

use cred_event::Entry;
use cred_ids::NoMemory;
use cred_script::Script;
use std::alloc::Global;

/// The last part of a journal, with the script.
#[derive(Drop)]
pub struct LastPart {
    /// The script.
    pub script: Script,
    /// The entries, in the order in which they were entered.
    pub entries: Vec<Entry>,
}

/// How many entries one part of a journal should have. They take 112 bytes each. Between two parts
/// all lanes stand still, and each gets a thread anew, which costs as much as a hundred entries.
pub const PART: usize = 16_384;

/// How many entries a line makes in most scripts, or fewer.
const ENTRIES_A_LINE: usize = 2;

/// An empty list, with room for the entries of most scripts, or of one part: a list that has to
/// grow is moved, and each page that it moves to costs a page fault.
///
/// # Errors
///
/// `NoMemory` if the room could not be allocated.
pub(crate) fn room_for_entries(alloc: Global, script: &Script) -> Result<Vec<Entry>, NoMemory>
    ensures { IfOk result (λ entries. entries.items ≡ []) }
{
    let most = ENTRIES_A_LINE * script.lines() as usize;
    let room = if most < PART { most } else { PART };
    Ok(Vec::with_capacity(alloc, room)?)
}
