//! The first line of a text and its words, found in one pass.
ghost use Rattle.std.specs.Prelude.{◌≡◌, ◌<◌, ◌≤◌, ◌∷◌, ◌++◌, ℕ, true, false, IfOk, OnOk};
ghost use Rattle.std.specs.Prelude.{length, slice_index};
ghost use Rattle.std.specs.List.{list_all};
ghost use Rattle.cred_spelling.specs.Lines as lines;
ghost use Rattle.cred_spelling.specs.Read.{nows};
ghost use Rattle.cred_spelling.specs.LineWords as spec;
ghost use Rattle.cred_spelling.specs.Words.{line_words};

use crate::lines::any_line;
use cred_ids::NoMemory;

/// Makes `words` those of the first line, which are separated by runs of spaces. Returns the line,
/// without its LF, the bytes after it, and whether each byte of the line is from 0x20 to 0x7E. If
/// one isn't, `words` may be any.
///
/// # Errors
///
/// `NoMemory` if the list cannot grow: then `words` may be any.
pub fn split_first_line<'b>(
    words: &mut Vec<&'b [u8]>,
    bytes: &'b [u8],
) -> Result<(&'b [u8], &'b [u8], bool), NoMemory>
    requires { 0 < length bytes.now }
    ensures line { IfOk result (λ split.
        lines.lines_of bytes.now ≡ split.0.now ∷ lines.lines_of split.1.now) }
    ensures printable { IfOk result (λ split. split.2 ≡ lines.is_printable split.0.now) }
    ensures words { IfOk result (λ split.
        split.2 ≡ true → nows words.new.items ≡ line_words split.0.now) }
    ensures shorter { IfOk result (λ split. length split.1.now < length bytes.now) }
{
    words.clear();
    let (word, mut behind) = first_word(bytes);
    push_word(words, word)?;
    while let [b' ', rest @ ..] = behind {
        let (word, after) = first_word(rest);
        push_word(words, word)?;
        behind = after;
    }
    match behind {
        [] => Ok((bytes, behind, true)),
        [b'\n', after @ ..] => Ok((&bytes[..bytes.len() - behind.len()], after, true)),
        _ => {
            let (line, after) = any_line(bytes);
            Ok((line, after, false))
        }
    }
}

/// Appends a word, if there is one: two spaces have none between them.
fn push_word<'b>(words: &mut Vec<&'b [u8]>, word: &'b [u8]) -> Result<(), NoMemory>
    ensures { OnOk result
        (nows words.new.items ≡ nows words.old.items ++ spec.some_word word.now) }
{
    if !word.is_empty() {
        words.push(word)?;
    }
    Ok(())
}

/// The bytes before the first that is no byte of a word, and the others.
fn first_word(bytes: &[u8]) -> (&[u8], &[u8])
    ensures whole { bytes.now ≡ result.0.now ++ result.1.now }
    ensures word { list_all spec.is_word_byte result.0.now ≡ true }
    ensures stops { spec.Stops result.1.now }
{
    bytes.split_at(word_end(bytes))
}

/// The place of the first byte that is no byte of a word, or the length where there is none.
fn word_end(bytes: &[u8]) -> usize
    ensures within { result ≤ length bytes.now }
    ensures before { (k : ℕ) → k < result → spec.is_word_byte (slice_index bytes.now k) ≡ true }
    ensures found { result < length bytes.now
        → spec.is_word_byte (slice_index bytes.now result) ≡ false }
{
    bytes
        .iter()
        .position(|byte| !byte.is_ascii_graphic())
        .unwrap_or(bytes.len())
}
