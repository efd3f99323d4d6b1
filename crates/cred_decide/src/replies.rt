//! The answers to questions about a credential.
ghost use Rattle.std.specs.Prelude.{◌≡◌, IfOk, OnErr};
ghost use Rattle.std.specs.Option.{option_map};
ghost use Rattle.cred_rules.specs.Adjust.{read_in};
ghost use Rattle.cred_model.specs.Answers.{checked, flag, reply};

use cred_access::{capable, may};
use cred_adjust::{amb_is_set, bset_read};
use cred_caps::Cap;
use cred_event::{Answer, Query, Told};
use cred_ids::NoMemory;
use cred_record::{Cred, FileInfo, IdList, Want};
use std::alloc::Global;

/// The answer to a question about a credential (credentials(7), capabilities(7), prctl(2)). `file`
/// is the file that the question names, if it names one; other questions don't look at it. A number
/// of a capability may be any `u32`: above 40 the answer is `Einval`.
///
/// # Errors
///
/// `NoMemory` where the credential's groups could not be copied; no other question takes memory.
pub fn reply(
    alloc: Global,
    file: Option<&FileInfo>,
    cred: &Cred,
    query: Query,
) -> Result<Answer, NoMemory>
    ensures told { IfOk result
        (λ answer. answer ≡ reply (option_map (λ file. file.now) file.entry) cred.now query) }
    ensures memory { OnErr result (query ≡ Query.Groups) }
{
    let told = match query {
        Query::Ids => Told::Ids {
            uid: cred.uid,
            gid: cred.gid,
        },
        Query::Caps => Told::Caps {
            perm: cred.perm,
            inh: cred.inh,
            eff: cred.eff,
            bound: cred.bound,
            amb: cred.amb,
        },
        Query::Groups => Told::Groups(IdList::of(alloc, cred.groups.items())?),
        Query::Bits => Told::Bits {
            bits: cred.bits,
            nnp: cred.nnp,
        },
        Query::Capable(n) => return Ok(flag(is_capable(cred, n))),
        Query::Bset(n) => return Ok(flag(bset_read(cred, n))),
        Query::AmbIs(n) => return Ok(flag(amb_is_set(cred, n))),
        Query::Check { want, .. } => return Ok(checked(cred, file, want)),
    };
    Ok(Answer::Told(told))
}

/// The answer to a question about one capability: a number above 40 is refused.
fn flag(is: Option<bool>) -> Answer
    ensures { result ≡ flag is }
{
    match is {
        Some(is) => Answer::Told(Told::Flag(is)),
        None => Answer::Einval,
    }
}

/// Whether the credential has capability n (capabilities(7)). `None` exactly above 40.
fn is_capable(cred: &Cred, n: u32) -> Option<bool>
    ensures { result ≡ read_in cred.now.eff n }
{
    Some(capable(cred, Cap::new(n)?))
}

/// The answer to the check of a file: `Done` where all that is wanted is permitted.
fn checked(cred: &Cred, file: Option<&FileInfo>, want: Want) -> Answer
    ensures { result ≡ checked cred.now (option_map (λ file. file.now) file.entry) want }
{
    match file {
        Some(file) if may(cred, file, want) => Answer::Done,
        _ => Answer::Eacces,
    }
}
