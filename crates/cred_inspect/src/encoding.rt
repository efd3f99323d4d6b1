//! The bytes of the attribute that a text of file capabilities describes.
ghost use Rattle.std.specs.Prelude.{◌≡◌, IfOk, string_bytes};
ghost use Rattle.cred_inspect.specs.Encoding.{IsLineOf, LeavesText, SaysText};
ghost use Rattle.cred_inspect.specs.Encoding.{text_refusal};
ghost use Rattle.cred_output.specs.Leaves.{IsWriting};

use crate::digits::append_hex;
use cred_captext::{TextRefusal, read_text};
use cred_filecap::{FileCaps, encode};
use cred_ids::NoMemory;
use cred_io::Sink;
use cred_output::{Message, Status, write_message};
use cred_report::append_word;
use std::alloc::Global;

/// Writes the bytes of the attribute that a text describes, or why it describes none.
pub fn run_encode<K: Sink>(alloc: Global, text: &[u8], sink: &mut K) -> Status
    ensures line { LeavesText text.now result (K.written sink.old) (K.written sink.new) }
    ensures writing { IsWriting result (K.flushed sink.new)
        (K.faults sink.old) (K.faults sink.new) }
{
    write_message(sink, message_of(alloc, text))
}

/// The line for the text, with its status.
fn message_of(alloc: Global, text: &[u8]) -> Result<Message, NoMemory>
    ensures { IfOk result (λ message. SaysText text.now message.status message.text.items) }
{
    match read_text(text) {
        Ok(caps) => Ok(Message {
            status: Status::Done,
            text: line_of(alloc, &caps)?,
        }),
        Err(refusal) => Ok(Message::of(Status::Bad, refusal_text(alloc, refusal)?)),
    }
}

/// The line of the bytes of an attribute, in hexadecimal digits.
fn line_of(alloc: Global, caps: &FileCaps) -> Result<Vec<u8>, NoMemory>
    ensures { IfOk result (λ line. IsLineOf caps.now line.items) }
{
    let attr = encode(alloc, caps)?;
    let mut line = Vec::new(alloc);
    append_hex(alloc, &mut line, attr.items())?;
    append_word(&mut line, "\n")?;
    Ok(line)
}

/// The text of why a text describes no attribute.
fn refusal_text(alloc: Global, refusal: TextRefusal) -> Result<String, NoMemory>
    ensures { IfOk result (λ line. string_bytes line ≡ text_refusal refusal) }
{
    match refusal {
        TextRefusal::Bad(k) => Ok(format!(in alloc; "bad text {k}\n")?),
        TextRefusal::Mixed => Ok(String::from_str(alloc, "bad flags\n")?),
    }
}
