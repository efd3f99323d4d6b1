//! The text of an entry, and of many.
ghost use Rattle.std.specs.Prelude.{◌≡◌, ◌++◌, OnOk, IfOk};
ghost use Rattle.cred_report.specs.Text.{entry_text, text};

use crate::answers::prepend_answer;
use crate::events::prepend_event;
use crate::pen::{PARTS, Pen};
use crate::words::prepend_word;
use cred_event::Entry;
use cred_ids::{Bytes as Text, NoMemory};
use cred_script::Script;
use std::alloc::Global;

/// Writes the text of the entry, a line of the report.
///
/// # Errors
///
/// `NoMemory` where the buffer cannot grow. Nothing is said of what it holds then.
#[inline(always)]
pub fn prepend(out: &mut Pen, script: &Script, entry: &Entry) -> Result<(), NoMemory>
    ensures { OnOk result (out.new.text ≡ entry_text script.now entry.now ++ out.old.text) }
{
    out.reserve(PARTS)?;
    prepend_word(out, "\n");
    prepend_answer(out, &entry.answer)?;
    prepend_word(out, " -> ");
    prepend_event(out, script, &entry.event)?;
    prepend_word(out, " ");
    out.line(entry.line);
    Ok(())
}

/// Writes the text of the entries, in their order.
///
/// # Errors
///
/// `NoMemory` where the buffer cannot grow. Nothing is said of what it holds then.
// Not inlined itself: all that an entry needs is inlined here.
#[inline(never)]
pub fn prepend_all(out: &mut Pen, script: &Script, entries: &[Entry]) -> Result<(), NoMemory>
    ensures { OnOk result (out.new.text ≡ text script.now entries.now ++ out.old.text) }
{
    let mut at = entries.len();
    while at > 0 {
        at -= 1;
        prepend(out, script, &entries[at])?;
    }
    Ok(())
}

/// The text of the entry, a line of the report, in memory of its own. To print many entries, use
/// `prepend`, whose buffer is there already.
///
/// # Errors
///
/// `NoMemory` if an allocation for the text fails.
pub fn print(alloc: Global, script: &Script, entry: &Entry) -> Result<Text, NoMemory>
    ensures { IfOk result (λ text. text ≡ entry_text script.now entry.now) }
{
    let mut pen = Pen::new(alloc);
    prepend(&mut pen, script, entry)?;
    Text::of(alloc, pen.items())
}
