//! What the bytes of a record of capset(2) say.
ghost use Rattle.std.specs.Prelude.{◌≡◌, ◌++◌, IfOk, OnOk, codes, string_bytes};
ghost use Rattle.cred_report.specs.Numbers.{set_text};
ghost use Rattle.cred_inspect.specs.Records.{IsTextOf, LeavesRecord, SaysRecord};
ghost use Rattle.cred_inspect.specs.Records.{record_refusal};
ghost use Rattle.cred_output.specs.Leaves.{IsWriting};

use crate::digits::append_hex;
use cred_capdata::{CapData, DataRefusal, read_data, write_data};
use cred_ids::NoMemory;
use cred_io::Sink;
use cred_output::{Message, Status, write_message};
use cred_report::{append_number, append_set, append_word};
use std::alloc::Global;

/// The version of the record that is written beside what a record says.
const VERSION: u8 = 3;

/// Writes what the bytes of a record say, and the bytes that say it by version 3; or why they are
/// no record.
pub fn run_capdata<K: Sink>(alloc: Global, bytes: &[u8], sink: &mut K) -> Status
    ensures record { LeavesRecord bytes.now result (K.written sink.old) (K.written sink.new) }
    ensures writing { IsWriting result (K.flushed sink.new)
        (K.faults sink.old) (K.faults sink.new) }
{
    write_message(sink, message_of(alloc, bytes))
}

/// The text for the bytes, with its status.
fn message_of(alloc: Global, bytes: &[u8]) -> Result<Message, NoMemory>
    ensures { IfOk result (λ message. SaysRecord bytes.now message.status message.text.items) }
{
    match read_data(bytes) {
        Ok(caps) => Ok(Message {
            status: Status::Done,
            text: text_of(alloc, caps)?,
        }),
        Err(refusal) => Ok(Message::of(Status::Bad, refusal_text(alloc, refusal)?)),
    }
}

/// The text of what a record says, with the bytes that say it by version 3.
fn text_of(alloc: Global, caps: CapData) -> Result<Vec<u8>, NoMemory>
    ensures { IfOk result (λ text. IsTextOf caps text.items) }
{
    let third = write_data(
        alloc,
        &CapData {
            version: VERSION,
            ..caps
        },
    )?;
    let mut text = Vec::new(alloc);
    append_number(&mut text, "version ", u32::from(caps.version))?;
    append_number(&mut text, " target ", caps.target)?;
    append_sets(&mut text, caps)?;
    append_word(&mut text, " v3 ")?;
    append_hex(alloc, &mut text, third.items())?;
    append_word(&mut text, "\n")?;
    Ok(text)
}

/// Appends the text of its three sets.
fn append_sets(text: &mut Vec<u8>, caps: CapData) -> Result<(), NoMemory>
    ensures { OnOk result (text.new.items ≡ text.old.items
        ++ codes " perm" ++ set_text caps.perm ++ codes " inh" ++ set_text caps.inh
        ++ codes " eff" ++ set_text caps.eff) }
{
    append_word(text, " perm")?;
    append_set(text, caps.perm)?;
    append_word(text, " inh")?;
    append_set(text, caps.inh)?;
    append_word(text, " eff")?;
    append_set(text, caps.eff)
}

/// The text of why bytes are no record.
fn refusal_text(alloc: Global, refusal: DataRefusal) -> Result<String, NoMemory>
    ensures { IfOk result (λ text. string_bytes text ≡ record_refusal refusal) }
{
    match refusal {
        DataRefusal::BadLength(n) => Ok(format!(in alloc; "bad length {n}\n")?),
        DataRefusal::BadVersion(n) => Ok(format!(in alloc; "bad version {n}\n")?),
    }
}
