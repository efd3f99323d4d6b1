//! The buffer.
ghost use Rattle.std.specs.Prelude.{◌≡◌, ◌++◌, [], OnOk, IfOk, length};
ghost use Rattle.cred_report.specs.Text.{entry_text};

use crate::pen::ForwardPen;
use cred_event::{Answer, Entry, Event};
use cred_ids::NoMemory;
use cred_report::{Pen, prepend};
use cred_script::Script;
use std::alloc::Global;
use std::marker::Model;

/// The text of entries, as far as it was written. Contracts see the text.
#[derive(Drop, Debug)]
pub struct ReportBuffer {
    pub(crate) pen: ForwardPen,
    /// Where an entry that is rare is written, before it is copied.
    backward: Pen,
}

impl Model for ReportBuffer {
    ghost use Rattle.std.specs.Prelude.{ℕ, List};

    ghost Value = { List ℕ };

    ghost view = { λ b. b.pen.text };
}

impl ReportBuffer {
    /// A buffer that nothing was written to.
    ///
    /// # Errors
    ///
    /// `NoMemory` if the allocation of its room fails.
    pub fn new(alloc: Global) -> Result<ReportBuffer, NoMemory>
        ensures { IfOk result (λ buffer. buffer ≡ []) }
    {
        Ok(ReportBuffer {
            pen: ForwardPen::new(alloc)?,
            backward: Pen::new(alloc),
        })
    }

    /// The text.
    #[inline(always)]
    pub fn items(&self) -> &[u8]
        ensures { result.now ≡ self.now }
    {
        self.pen.items()
    }

    /// How many bytes the text has.
    #[inline(always)]
    pub fn len(&self) -> usize
        ensures { result ≡ length self.now }
    {
        self.pen.len()
    }

    /// Drops the text, and keeps the memory.
    pub fn clear(&mut self)
        ensures { self.new ≡ [] }
    {
        self.pen.clear()
    }

    /// Writes the text of the entry.
    ///
    /// # Errors
    ///
    /// `NoMemory` where the buffer cannot grow: nothing is said of what it holds then.
    #[inline(never)]
    pub fn write_entry(&mut self, script: &Script, entry: &Entry) -> Result<(), NoMemory>
        ensures { OnOk result (self.new ≡ self.old ++ entry_text script.now entry.now) }
    {
        self.backward.clear();
        prepend(&mut self.backward, script, entry)?;
        self.pen.append(self.backward.items())
    }

    /// The same, of an entry's parts.
    #[cold]
    #[inline(never)]
    pub(crate) fn write_rare(
        &mut self,
        script: &Script,
        line: u32,
        event: Event,
        answer: Answer,
    ) -> Result<(), NoMemory>
        ensures { OnOk result (self.new ≡ self.old ++ entry_text script.now
            (record { line = line; event = event; answer = answer })) }
    {
        self.write_entry(
            script,
            &Entry {
                line,
                event,
                answer,
            },
        )
    }
}
