//! The questions of a line, and what is wanted of a file.
ghost use Rattle.cred_spelling.specs.Read.{Says, nows};
ghost use Rattle.cred_grammar.specs.Questions as spec;

use crate::named::file_at;
use cred_event::Query;
use cred_record::Want;
use cred_script::DeclaredFiles;
use cred_spelling::{QueryName, Reason, SpelledCap, bare, one, query_name, word};

/// `NAME WANT`: a file, by its place, and what is wanted of it.
#[tactic(auto, unfolding(crate::specs::Questions::file_and_want))]
#[inline(always)]
pub(crate) fn file_and_want(files: &DeclaredFiles, words: &[&[u8]]) -> Result<(u32, Want), Reason>
    ensures { Says (λ asked. asked) result (spec.file_and_want files.now (nows words.now)) }
{
    match words {
        [name, want] => Ok((file_at(files, name)?, word::<Want>(want)?)),
        _ => Err(Reason::Count),
    }
}

/// A question, by the word that names it, with its arguments. A file is given by its place, from 0
/// to 256: the number of files where none has the name.
///
/// # Errors
///
/// `Reason::Word` where the word names no question or another spells no argument, `Reason::Count`
/// where the words are more or fewer than the question has.
#[tactic(auto, unfolding(crate::specs::Questions::query_named))]
pub fn query_named(files: &DeclaredFiles, name: &[u8], words: &[&[u8]]) -> Result<Query, Reason>
    ensures { Says (λ query. query) result
        (spec.query_named files.now name.now (nows words.now)) }
{
    match query_name(name) {
        Some(name) => query_of(files, name, words),
        None => Err(Reason::Word),
    }
}

/// A question, by its name.
#[tactic(auto, unfolding(crate::specs::Questions::query_of))]
// Inlined, so that the question isn't put into memory on its way into the line.
#[inline(always)]
pub(crate) fn query_of(
    files: &DeclaredFiles,
    name: QueryName,
    words: &[&[u8]],
) -> Result<Query, Reason>
    ensures { Says (λ query. query) result (spec.query_of files.now name (nows words.now)) }
{
    match name {
        QueryName::Ids => bare(words, Query::Ids),
        QueryName::Caps => bare(words, Query::Caps),
        QueryName::Groups => bare(words, Query::Groups),
        QueryName::Bits => bare(words, Query::Bits),
        QueryName::Capable => Ok(Query::Capable(one::<SpelledCap>(words)?)),
        QueryName::Bset => Ok(Query::Bset(one::<SpelledCap>(words)?)),
        QueryName::AmbIs => Ok(Query::AmbIs(one::<SpelledCap>(words)?)),
        QueryName::Check => {
            let (file, want) = file_and_want(files, words)?;
            Ok(Query::Check { file, want })
        }
    }
}
