//! A work is decided.
ghost use Rattle.std.specs.Prelude.{◌≡◌, OnOk, OnErr};
ghost use Rattle.cred_work.specs.Decisions.{AreOf, PutStays};
ghost use Rattle.cred_work.specs.DecidedWorks.{Stays, IsDecided};

use crate::pause::Pause;
use crate::work::{Work, WorkFields};
use cred_hold::Cells;
use cred_ids::NoMemory;
use std::alloc::Global;

/// Decides a work. Its line, event, file and chain stay, and so do its tokens, but for the new
/// credential, which the writer has put where the change isn't refused. It waits for nobody but
/// `pause`, which it calls once the words have been read, before anything is decided by them.
///
/// # Errors
///
/// `NoMemory` if an allocation fails. The work stays as it was.
pub fn perform<P: Pause>(
    alloc: Global,
    cells: &Cells,
    pause: &P,
    work: &mut Work,
) -> Result<(), NoMemory>
    requires own { AreOf cells.now work.old.lent }
    ensures decided { OnOk result (IsDecided work.new) }
    ensures stays { Stays work.old work.new }
    ensures refused { OnOk result (PutStays work.old.lent work.new.lent) }
    ensures same { OnErr result (work.new ≡ work.old) }
{
    let Work { parts } = work;
    let WorkFields {
        file,
        chain,
        lent,
        ..
    } = parts.as_mut();
    match lent {
        Some(lent) => lent.decide(alloc, cells, pause, file.as_ref(), chain.items()),
        // Something is lent for each work.
        None => Ok(()),
    }
}
