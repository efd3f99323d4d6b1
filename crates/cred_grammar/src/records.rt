//! A word that is a record of capset(2), in hexadecimal digits.
ghost use Rattle.cred_grammar.specs.Records as spec;
ghost use Rattle.cred_grammar.specs.ReadAnswers.{GivesLine};
ghost use Rattle.cred_spelling.specs.Words.{word_of};

use crate::hex_word::hex_word;
use crate::refusal::LineRefusal;
use cred_capdata::{CapData, read_data};
use cred_spelling::Reason;
use std::alloc::Global;

/// The record that the word spells, where it is about 0, the caller, or about the task.
///
/// # Errors
///
/// `LineRefusal::Bad` with `Reason::Word` where the word spells no record, or one about another
/// task; `LineRefusal::Memory` where there is no memory for its bytes.
pub(crate) fn record_of(alloc: Global, task: u32, word: &[u8]) -> Result<CapData, LineRefusal>
    ensures { GivesLine (λ made. made) result (word_of (spec.record_of task) word.now) }
{
    match read_data(&hex_word(alloc, word)?) {
        Ok(data) if data.target == 0 || data.target == task => Ok(data),
        _ => Err(LineRefusal::Bad(Reason::Word)),
    }
}
