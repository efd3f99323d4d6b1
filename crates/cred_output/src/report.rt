//! Writing entries as lines of a report.
ghost use Rattle.std.specs.Prelude.{◌≡◌, ◌<◌, ◌≤◌, true, OnOk, OnErr};
ghost use Rattle.std.specs.Io.KnownBytes.{Appends};
ghost use Rattle.cred_io.specs.Causes.{CountsFaults};
ghost use Rattle.cred_io.specs.Ends.{AppendsPrefix};
ghost use Rattle.cred_report.specs.Text.{text};

use cred_event::Entry;
use cred_io::{Sink, SinkRefusal, write_all};
use cred_report::{Pen, prepend_all};
use cred_script::Script;

/// Where the entries end that are written together with the one at this place.
fn end_of(at: usize, count: usize, together: usize) -> usize
    requires { (at < count) × (0 < together) }
    ensures more { at < result }
    ensures within { result ≤ count }
{
    if count - at < together {
        count
    } else {
        at + together
    }
}

/// Writes the text of some entries through one buffer, as many entries in one write as the sink
/// takes.
///
/// # Errors
///
/// The sink's refusal, and `Memory` if an allocation of the buffer fails: a prefix of the text was
/// written.
pub fn write_entries<K: Sink>(
    sink: &mut K,
    pen: &mut Pen,
    script: &Script,
    entries: &[Entry],
) -> Result<(), SinkRefusal>
    ensures ok { OnOk result
        (Appends (K.written sink.old) (K.written sink.new) (text script.now entries.now)) }
    ensures err { OnErr result
        (AppendsPrefix (K.written sink.old) (K.written sink.new) (text script.now entries.now)) }
    ensures cause { CountsFaults (result ≡ Err SinkRefusal.Failed)
        (K.faults sink.old) (K.faults sink.new) }
{
    let mut at = 0;
    while at < entries.len() {
        let end = end_of(at, entries.len(), sink.pieces_a_write());
        pen.clear();
        let Ok(()) = prepend_all(pen, script, &entries[at..end]) else {
            return Err(SinkRefusal::Memory);
        };
        write_all(sink, pen.items())?;
        at = end;
    }
    Ok(())
}

/// The same for the last entries of a report, and hands it on: what a buffer keeps back can still
/// be lost.
///
/// # Errors
///
/// The sink's refusal, and `Memory` if an allocation of the buffer fails: a prefix of the text was
/// written.
#[tactic(auto, using(crate::proofs::Prefixes::flushed))]
pub fn write_last<K: Sink>(
    sink: &mut K,
    pen: &mut Pen,
    script: &Script,
    entries: &[Entry],
) -> Result<(), SinkRefusal>
    ensures ok { OnOk result
        (Appends (K.written sink.old) (K.written sink.new) (text script.now entries.now)) }
    ensures err { OnErr result
        (AppendsPrefix (K.written sink.old) (K.written sink.new) (text script.now entries.now)) }
    ensures flushed { OnOk result (K.flushed sink.new ≡ true) }
    ensures cause { CountsFaults (result ≡ Err SinkRefusal.Failed)
        (K.faults sink.old) (K.faults sink.new) }
{
    write_entries(sink, pen, script, entries)?;
    sink.flush()
}
