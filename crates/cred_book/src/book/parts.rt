//! The parts in which the journal comes.
ghost use Rattle.std.specs.Prelude.{◌≡◌, ◌++◌};

use crate::book::Book;
use crate::journal::{LastPart, PART};
use cred_event::Entry;

impl Book {
    /// The entries of this part, in the order in which they were entered: the journal is those of
    /// the parts before it, and these.
    pub fn entries(&self) -> &[Entry]
        ensures { self.now.journal ≡ self.now.earlier ++ result.now }
    {
        &self.kept
    }

    /// Whether this part has as many entries as one should have.
    // Called for each event of a lane.
    #[inline(always)]
    pub fn is_full(&self) -> bool {
        self.kept.len() >= PART
    }

    /// Begins the next part: the entries are not kept any more. The journal stays what it is. No
    /// memory is taken.
    pub fn begin_part(&mut self)
        ensures { self.new ≡ record self.old { earlier = self.old.journal } }
    {
        self.earlier.add(&self.kept);
        self.kept.clear();
    }

    /// The script and the entries of the last part. No memory is taken.
    pub fn into_last_part(self) -> LastPart
        ensures script { result.script ≡ self.script }
        ensures entries { self.journal ≡ self.earlier ++ result.entries.items }
    {
        let Book {
            script,
            state,
            earlier,
            kept,
            cursors,
            ended,
            outs,
            spare,
            alloc: _,
        } = self;
        drop(state);
        drop(earlier);
        drop(cursors);
        drop(ended);
        drop(outs);
        drop(spare);
        LastPart {
            script,
            entries: kept,
        }
    }
}
