//! Short texts: what a command writes in place of a report. They are written here alone, and the
//! sink is flushed: what a buffer keeps back can still be lost.
ghost use Rattle.std.specs.Prelude.{◌≡◌, true, IfOk, OnOk, OnErr, string_bytes};
ghost use Rattle.std.specs.Io.KnownBytes.{Appends};
ghost use Rattle.cred_io.specs.Causes.{CountsFaults};
ghost use Rattle.cred_io.specs.Ends.{AppendsPrefix};
ghost use Rattle.cred_output.specs.Ends.{IsWhole};
ghost use Rattle.cred_output.specs.Leaves.{IsWriting};
ghost use Rattle.cred_output.specs.Messages.{WritesShortText, WritesMessage};

use crate::status::{Status, finish};
use cred_ids::NoMemory;
use cred_io::{Sink, SinkRefusal, write_all};

/// What a command writes in place of a report, and the status if all of it was written.
#[derive(Drop, Debug)]
pub struct Message {
    /// How the command ends, if all of the text was written.
    pub status: Status,
    /// The text.
    pub text: Vec<u8>,
}

impl Message {
    /// This text, with this status.
    pub fn of(status: Status, text: String) -> Message
        ensures status { result.status ≡ status }
        ensures text { result.text.items ≡ string_bytes text }
    {
        Message {
            status,
            text: text.into_bytes(),
        }
    }
}

/// Writes a short text, and returns how the command ends: with this status, if all of it was
/// written and flushed.
pub fn write_short_text<K: Sink>(sink: &mut K, status: Status, text: &[u8]) -> Status
    requires { IsWhole status }
    ensures told { WritesShortText status text.now result (K.written sink.old)
        (K.written sink.new) }
    ensures writing { IsWriting result (K.flushed sink.new)
        (K.faults sink.old) (K.faults sink.new) }
{
    finish(write_text(sink, text), status)
}

/// The same for a text with its status; nothing is written where memory ran out before there was a
/// text.
pub fn write_message<K: Sink>(sink: &mut K, message: Result<Message, NoMemory>) -> Status
    requires { IfOk message (λ message. IsWhole message.status) }
    ensures told { WritesMessage message result (K.written sink.old) (K.written sink.new)
        (sink.new ≡ sink.old) }
    ensures writing { IsWriting result (K.flushed sink.new)
        (K.faults sink.old) (K.faults sink.new) }
{
    match message {
        Ok(message) => write_short_text(sink, message.status, &message.text),
        Err(NoMemory) => Status::Memory,
    }
}

/// Writes a short text, and flushes it.
///
/// # Errors
///
/// The sink's refusal: a prefix of the text was written.
#[tactic(auto, using(crate::proofs::Prefixes::flushed))]
fn write_text<K: Sink>(sink: &mut K, text: &[u8]) -> Result<(), SinkRefusal>
    ensures ok { OnOk result (Appends (K.written sink.old) (K.written sink.new) text.now) }
    ensures err { OnErr result
        (AppendsPrefix (K.written sink.old) (K.written sink.new) text.now) }
    ensures flushed { OnOk result (K.flushed sink.new ≡ true) }
    ensures cause { CountsFaults (result ≡ Err SinkRefusal.Failed)
        (K.faults sink.old) (K.faults sink.new) }
{
    write_all(sink, text)?;
    sink.flush()
}
