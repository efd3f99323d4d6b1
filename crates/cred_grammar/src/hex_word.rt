//! A word of hexadecimal digits.
ghost use Rattle.cred_grammar.specs.ReadAnswers.{GivesLine};
ghost use Rattle.cred_spelling.specs.Spellings.{bytes_of};
ghost use Rattle.cred_spelling.specs.Words.{word_of};

use crate::refusal::LineRefusal;
use cred_spelling::{Reason, bytes_of};
use std::alloc::Global;

/// The bytes that the word spells.
///
/// # Errors
///
/// `LineRefusal::Bad` with `Reason::Word` where it spells none; `LineRefusal::Memory` where there
/// is no memory for them.
pub(crate) fn hex_word(alloc: Global, word: &[u8]) -> Result<Vec<u8>, LineRefusal>
    ensures { GivesLine (λ bytes. bytes.items) result (word_of bytes_of word.now) }
{
    bytes_of(alloc, word)?.ok_or(LineRefusal::Bad(Reason::Word))
}
