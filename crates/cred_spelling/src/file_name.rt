//! The names of files.
ghost use Rattle.cred_spelling.specs.Read.{Says};
ghost use Rattle.cred_spelling.specs.Words as spec;

use crate::reason::Reason;
use crate::spellings::is_name;
use std::str;

/// The name of a file: 1 to 32 letters, digits, `_`, `.` and `-`, a letter first.
///
/// # Errors
///
/// `Reason::Word` where the word is no such name.
pub fn name_of(word: &[u8]) -> Result<&str, Reason>
    ensures { Says (λ name. name.now) result (spec.name_of word.now) }
{
    match str::from_utf8(word) {
        Ok(name) if is_name(word) => Ok(name),
        Ok(_) => Err(Reason::Word),
        // A name has letters, digits and three marks alone: what isn't UTF-8 is no name.
        Err(_) => Err(Reason::Word),
    }
}
