//! The text for bytes that are no script: their first bad line.
ghost use Rattle.std.specs.Prelude.{◌≡◌, IfOk, string_bytes};
ghost use Rattle.cred_output.specs.Messages.{SaysRefusal};
ghost use Rattle.cred_output.specs.Texts as spec;
ghost use Rattle.cred_output.specs.Texts.{reason_text};

use crate::message::Message;
use crate::status::Status;
use cred_grammar::{Reason, ScriptRefusal};
use cred_ids::NoMemory;
use std::alloc::Global;

/// The first bad line, and the reason.
///
/// # Errors
///
/// `NoMemory` if memory ran out as the script was read, or if an allocation of the text fails.
pub fn bad_line(alloc: Global, refusal: ScriptRefusal) -> Result<Message, NoMemory>
    ensures { IfOk result (λ message. SaysRefusal refusal message.status message.text.items) }
{
    match refusal {
        ScriptRefusal::Bad { line, reason } => {
            Ok(Message::of(Status::Bad, bad_text(alloc, line, reason)?))
        }
        ScriptRefusal::Memory => Err(NoMemory),
    }
}

fn bad_text(alloc: Global, line: u32, reason: Reason) -> Result<String, NoMemory>
    ensures { IfOk result (λ text. string_bytes text ≡ spec.bad_text (line, reason)) }
{
    let word = reason_word(reason);
    Ok(format!(in alloc; "bad {line} {word}\n")?)
}

fn reason_word(reason: Reason) -> &'static str
    ensures { result.now ≡ reason_text reason }
{
    match reason {
        Reason::Byte => "byte",
        Reason::Word => "word",
        Reason::Count => "count",
        Reason::Order => "order",
        Reason::Name => "name",
        Reason::Lane => "lane",
    }
}
