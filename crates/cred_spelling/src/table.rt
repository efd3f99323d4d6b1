//! Tables of words.
ghost use Rattle.std.specs.Prelude.{◌≡◌};
ghost use Rattle.cred_spelling.specs.Table as spec;

use crate::spellings::is;

/// What the word names in the table, or none.
#[inline(always)]
pub fn named<T: Copy>(table: &[(&'static str, T)], word: &[u8]) -> Option<T>
    ensures { result ≡ spec.named (spec.rows table.now) word.now }
{
    for (name, value) in table {
        if is(word, name) {
            return Some(*value);
        }
    }
    None
}
