//! The lines that declare files.
ghost use Rattle.cred_spelling.specs.Read.{nows};
ghost use Rattle.cred_grammar.specs.Files as spec;
ghost use Rattle.cred_grammar.specs.ReadAnswers.{GivesLine};

use crate::hex_word::hex_word;
use crate::refusal::LineRefusal;
use cred_ids::{Id, limits};
use cred_record::{Attr, FileInfo, FileKind};
use cred_script::{DeclaredFiles, ScriptFile};
use cred_spelling::{Reason, is, mode_of, name_of, three};
use std::alloc::Global;

/// The fewest words after the first one of such a line.
const LEAST_WORDS: usize = 5;

/// The most: `nosuid` and `caps HEX` may follow.
const MOST_WORDS: usize = 8;

/// `file NAME KIND ID ID MODE`, then perhaps `nosuid`, then perhaps `caps HEX`.
#[tactic(auto, unfolding(crate::specs::Files::file_of))]
pub(crate) fn file_of(
    alloc: Global,
    files: &DeclaredFiles,
    words: &[&[u8]],
) -> Result<ScriptFile, LineRefusal>
    ensures { GivesLine (λ file. file) result (spec.file_of files.now (nows words.now)) }
{
    let has_room = files.len() < limits::FILES;
    let has_count = LEAST_WORDS <= words.len() && words.len() <= MOST_WORDS;
    if !has_room || !has_count {
        return Err(LineRefusal::Bad(Reason::Count));
    }
    declared_of(alloc, words)
}

/// `NAME KIND ID ID MODE`, and what may follow.
#[tactic(auto, unfolding(crate::specs::Files::declared_of))]
fn declared_of(alloc: Global, words: &[&[u8]]) -> Result<ScriptFile, LineRefusal>
    ensures { GivesLine (λ file. file) result (spec.declared_of (nows words.now)) }
{
    match words {
        [] => Err(LineRefusal::Bad(Reason::Count)),
        [name, words @ ..] => {
            let name = name_of(name)?;
            let info = read_info(alloc, words)?;
            Ok(ScriptFile {
                name: String::from_str(alloc, name)?,
                info,
            })
        }
    }
}

/// `KIND ID ID MODE`, and what may follow.
#[tactic(auto, unfolding(crate::specs::Files::read_info))]
fn read_info(alloc: Global, words: &[&[u8]]) -> Result<FileInfo, LineRefusal>
    ensures { GivesLine (λ info. info) result (spec.read_info (nows words.now)) }
{
    match words {
        [kind, owner, group, mode, options @ ..] => {
            let (kind, owner, group) = three::<FileKind, Id, Id>(&[*kind, *owner, *group])?;
            let Some(mode) = mode_of(mode) else {
                return Err(LineRefusal::Bad(Reason::Word));
            };
            let (nosuid, attr) = options_of(alloc, options)?;
            Ok(FileInfo {
                kind,
                owner,
                group,
                mode,
                nosuid,
                attr,
            })
        }
        _ => Err(LineRefusal::Bad(Reason::Count)),
    }
}

/// What may follow: `nosuid`, and then `caps HEX`.
#[tactic(auto, unfolding(crate::specs::Files::options_of))]
fn options_of(alloc: Global, words: &[&[u8]]) -> Result<(bool, Option<Attr>), LineRefusal>
    ensures { GivesLine (λ options. options) result (spec.options_of (nows words.now)) }
{
    match words {
        [first, rest @ ..] if is(first, "nosuid") => Ok((true, attr_of(alloc, rest)?)),
        _ => Ok((false, attr_of(alloc, words)?)),
    }
}

/// Nothing, or `caps HEX`.
#[tactic(auto, unfolding(crate::specs::Files::attr_of))]
fn attr_of(alloc: Global, words: &[&[u8]]) -> Result<Option<Attr>, LineRefusal>
    ensures { GivesLine (λ attr. attr) result (spec.attr_of (nows words.now)) }
{
    match words {
        [] => Ok(None),
        [word, digits] => {
            if !is(word, "caps") {
                return Err(LineRefusal::Bad(Reason::Word));
            }
            Ok(Some(Attr::from_vec(hex_word(alloc, digits)?)))
        }
        _ => Err(LineRefusal::Bad(Reason::Word)),
    }
}
