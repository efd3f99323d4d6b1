//! The id calls of a line: their arguments.
ghost use Rattle.cred_spelling.specs.Read.{nows};
ghost use Rattle.cred_grammar.specs.IdCalls as spec;
ghost use Rattle.cred_grammar.specs.ReadAnswers.{GivesLine};

use crate::refusal::LineRefusal;
use cred_ids::{Arg, Id};
use cred_record::{IdCall, IdList};
use cred_spelling::{IdName, one, three, two, word};
use std::alloc::Global;

/// Any number of ids.
///
/// # Errors
///
/// `LineRefusal::Bad` where a word is no id, `LineRefusal::Memory` where there is no memory for the
/// list.
pub fn ids(alloc: Global, words: &[&[u8]]) -> Result<Vec<Id>, LineRefusal>
    ensures { GivesLine (λ v. v.items) result (spec.ids (nows words.now)) }
{
    let mut ids = Vec::with_capacity(alloc, words.len())?;
    for text in words {
        ids.push(word::<Id>(text)?)?;
    }
    Ok(ids)
}

/// An id call, by its name.
///
/// # Errors
///
/// `LineRefusal::Bad` where the words are not its arguments, `LineRefusal::Memory` where there is
/// no memory for a list of groups.
#[tactic(auto, unfolding(crate::specs::IdCalls::id_call_of))]
pub fn id_call_of(alloc: Global, name: IdName, words: &[&[u8]]) -> Result<IdCall, LineRefusal>
    ensures { GivesLine (λ call. call) result (spec.id_call_of name (nows words.now)) }
{
    match name {
        IdName::SetUid => Ok(IdCall::SetUid(one::<Arg>(words)?)),
        IdName::SetEuid => Ok(IdCall::SetEuid(one::<Arg>(words)?)),
        IdName::SetReuid => {
            let (real, effective) = two::<Arg, Arg>(words)?;
            Ok(IdCall::SetReuid(real, effective))
        }
        IdName::SetResuid => {
            let (real, effective, saved) = three::<Arg, Arg, Arg>(words)?;
            Ok(IdCall::SetResuid(real, effective, saved))
        }
        IdName::SetGid => Ok(IdCall::SetGid(one::<Arg>(words)?)),
        IdName::SetEgid => Ok(IdCall::SetEgid(one::<Arg>(words)?)),
        IdName::SetRegid => {
            let (real, effective) = two::<Arg, Arg>(words)?;
            Ok(IdCall::SetRegid(real, effective))
        }
        IdName::SetResgid => {
            let (real, effective, saved) = three::<Arg, Arg, Arg>(words)?;
            Ok(IdCall::SetResgid(real, effective, saved))
        }
        IdName::SetGroups => Ok(IdCall::SetGroups(IdList::from_vec(ids(alloc, words)?))),
    }
}
