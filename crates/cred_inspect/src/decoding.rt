//! What the bytes of a file's capability attribute say.
ghost use Rattle.std.specs.Prelude.{◌≡◌, ◌++◌, IfOk, OnOk, codes, string_bytes};
ghost use Rattle.cred_report.specs.Numbers.{set_text};
ghost use Rattle.cred_inspect.specs.Decoding.{LeavesAttribute, SaysBytes};
ghost use Rattle.cred_output.specs.Leaves.{IsWriting};
ghost use Rattle.cred_output.specs.Texts as spec;
ghost use Rattle.cred_output.specs.Texts.{attr_text};

use cred_filecap::{AttrRefusal, FileCaps, decode};
use cred_ids::NoMemory;
use cred_io::Sink;
use cred_output::{Message, Status, write_message};
use cred_report::{append_flag, append_number, append_set, append_word};
use std::alloc::Global;

/// Writes what the bytes of an attribute say, or why they are no attribute.
pub fn run_decode<K: Sink>(alloc: Global, bytes: &[u8], sink: &mut K) -> Status
    ensures attribute { LeavesAttribute bytes.now result (K.written sink.old) (K.written sink.new) }
    ensures writing { IsWriting result (K.flushed sink.new)
        (K.faults sink.old) (K.faults sink.new) }
{
    write_message(sink, message_of(alloc, bytes))
}

/// The text for the bytes, with its status.
fn message_of(alloc: Global, bytes: &[u8]) -> Result<Message, NoMemory>
    ensures { IfOk result (λ message. SaysBytes bytes.now message.status message.text.items) }
{
    match decode(bytes) {
        Ok(caps) => Ok(Message {
            status: Status::Done,
            text: text_of(alloc, caps)?,
        }),
        Err(refusal) => Ok(Message::of(Status::Bad, refusal_text(alloc, refusal)?)),
    }
}

/// The text of what an attribute says.
fn text_of(alloc: Global, caps: FileCaps) -> Result<Vec<u8>, NoMemory>
    ensures { IfOk result (λ text. text.items ≡ attr_text caps) }
{
    let mut text = Vec::new(alloc);
    append_number(&mut text, "version ", u32::from(caps.version))?;
    append_sets(&mut text, caps)?;
    append_word(&mut text, " effective")?;
    append_flag(&mut text, caps.effective)?;
    append_number(&mut text, " root ", caps.root)?;
    append_word(&mut text, "\n")?;
    Ok(text)
}

/// Appends the text of its two sets.
fn append_sets(text: &mut Vec<u8>, caps: FileCaps) -> Result<(), NoMemory>
    ensures { OnOk result (text.new.items ≡ text.old.items
        ++ codes " perm" ++ set_text caps.perm ++ codes " inh" ++ set_text caps.inh) }
{
    append_word(text, " perm")?;
    append_set(text, caps.perm)?;
    append_word(text, " inh")?;
    append_set(text, caps.inh)
}

/// The text of why bytes are no attribute.
fn refusal_text(alloc: Global, refusal: AttrRefusal) -> Result<String, NoMemory>
    ensures { IfOk result (λ text. string_bytes text ≡ spec.refusal_text refusal) }
{
    match refusal {
        AttrRefusal::BadLength(n) => Ok(format!(in alloc; "bad length {n}\n")?),
        AttrRefusal::BadRevision(n) => Ok(format!(in alloc; "bad revision {n}\n")?),
    }
}
