//! The calls on a file that a line names: their arguments.
ghost use Rattle.cred_spelling.specs.Read.{Says, nows};
ghost use Rattle.cred_grammar.specs.FileCalls as spec;
ghost use Rattle.cred_grammar.specs.ReadAnswers.{GivesLine};

use crate::hex_word::hex_word;
use crate::named::file_at;
use crate::refusal::LineRefusal;
use cred_event::FileCall;
use cred_ids::Arg;
use cred_record::Attr;
use cred_script::DeclaredFiles;
use cred_spelling::{FileCallName, Reason, mode_of, two};
use std::alloc::Global;

/// A call on a file, by its name, with its arguments. The file is given by its place, from 0 to
/// 256: the number of files where none has the name.
///
/// # Errors
///
/// `LineRefusal::Bad` with `Reason::Count` where the words are more or fewer than the call has, and
/// with `Reason::Word` where one spells no argument; `LineRefusal::Memory` where there is no memory
/// for the bytes of an attribute.
#[tactic(auto, unfolding(crate::specs::FileCalls::file_call_of))]
pub fn file_call_of(
    alloc: Global,
    files: &DeclaredFiles,
    name: FileCallName,
    words: &[&[u8]],
) -> Result<FileCall, LineRefusal>
    ensures { GivesLine (λ call. call) result
        (spec.file_call_of files.now name (nows words.now)) }
{
    match name {
        FileCallName::Chown => Ok(chown_of(files, words)?),
        FileCallName::Chmod => Ok(chmod_of(files, words)?),
        FileCallName::SetAttr => set_attr_of(alloc, files, words),
        FileCallName::ClearAttr => Ok(FileCall::SetAttr {
            file: file_alone(files, words)?,
            attr: None,
        }),
        FileCallName::Stat => Ok(FileCall::Stat {
            file: file_alone(files, words)?,
        }),
    }
}

/// `chown NAME ARG ARG`: the owner and the group.
#[tactic(auto, unfolding(crate::specs::FileCalls::chown_of))]
fn chown_of(files: &DeclaredFiles, words: &[&[u8]]) -> Result<FileCall, Reason>
    ensures { Says (λ call. call) result (spec.chown_of files.now (nows words.now)) }
{
    match words {
        [name, owner, group] => {
            let file = file_at(files, name)?;
            let (owner, group) = two::<Arg, Arg>(&[*owner, *group])?;
            Ok(FileCall::Chown { file, owner, group })
        }
        _ => Err(Reason::Count),
    }
}

/// `chmod NAME MODE`
#[tactic(auto, unfolding(crate::specs::FileCalls::chmod_of))]
fn chmod_of(files: &DeclaredFiles, words: &[&[u8]]) -> Result<FileCall, Reason>
    ensures { Says (λ call. call) result (spec.chmod_of files.now (nows words.now)) }
{
    match words {
        [name, mode] => {
            let file = file_at(files, name)?;
            match mode_of(mode) {
                Some(mode) => Ok(FileCall::Chmod { file, mode }),
                None => Err(Reason::Word),
            }
        }
        _ => Err(Reason::Count),
    }
}

/// `setattr NAME HEX`
#[tactic(auto, unfolding(crate::specs::FileCalls::set_attr_of))]
fn set_attr_of(
    alloc: Global,
    files: &DeclaredFiles,
    words: &[&[u8]],
) -> Result<FileCall, LineRefusal>
    ensures { GivesLine (λ call. call) result (spec.set_attr_of files.now (nows words.now)) }
{
    match words {
        [name, digits] => {
            let file = file_at(files, name)?;
            let attr = Some(Attr::from_vec(hex_word(alloc, digits)?));
            Ok(FileCall::SetAttr { file, attr })
        }
        _ => Err(LineRefusal::Bad(Reason::Count)),
    }
}

/// One file.
#[tactic(auto, unfolding(crate::specs::FileCalls::file_alone))]
fn file_alone(files: &DeclaredFiles, words: &[&[u8]]) -> Result<u32, Reason>
    ensures { Says (λ file. file) result (spec.file_alone files.now (nows words.now)) }
{
    match words {
        [name] => file_at(files, name),
        _ => Err(Reason::Count),
    }
}
