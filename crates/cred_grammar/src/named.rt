//! The file that a word names.
ghost use Rattle.cred_spelling.specs.Read.{Says};
ghost use Rattle.cred_grammar.specs.Files as spec;

use cred_script::DeclaredFiles;
use cred_spelling::{Reason, name_of};

/// The file that the word names, by its place, or, where none has that name, the next place that a
/// file may take, from 0 to 256.
///
/// # Errors
///
/// `Reason::Word` where the word is no name.
#[inline(always)]
pub fn file_at(files: &DeclaredFiles, word: &[u8]) -> Result<u32, Reason>
    ensures { Says (λ place. place) result (spec.file_at files.now word.now) }
{
    let name = name_of(word)?;
    Ok(files.place_of(name).unwrap_or(files.len() as u32))
}
