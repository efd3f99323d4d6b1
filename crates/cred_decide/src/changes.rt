//! What a change makes of a credential.
ghost use Rattle.std.specs.Prelude.{◌≡◌, IfOk, OnErr, true};
ghost use Rattle.std.specs.Option.{option_map};
ghost use Rattle.cred_model.specs.Change as spec;
ghost use Rattle.cred_model.specs.LabelEvents.{committed_by};
ghost use Rattle.cred_rules.specs.Exec.{exec};
ghost use Rattle.cred_decide.specs.Memory.{makes_credential};

use crate::refusals::refusal_answer;
use cred_access::access_cred;
use cred_adjust::apply;
use cred_caps::CapSet;
use cred_event::{Answer, Change};
use cred_exec::{ExecRefusal, exec};
use cred_ids::{Id, NoMemory};
use cred_record::{Cred, FileInfo, Gains};
use cred_setid::setfs;
use std::marker::Model;

/// What a change has made: its answer, the new credential, and what that one's permitted set gained
/// over the old one's by execve(2). Contracts see the record `Made` of `specs/Change.antt` of
/// `cred_model`, with the same fields.
#[derive(Drop)]
pub struct Made {
    pub answer: Answer,
    pub cred: Cred,
    pub gains: Gains,
}

impl Model for Made {
    ghost use Rattle.cred_model.specs.Change.{Made};

    ghost Value = { Made };

    ghost view = { λ m. record { answer = m.answer; cred = m.cred; gains = m.gains } };
}

/// What a change has made that gains nothing, as all but execve(2) do.
fn without_gains(answer: Answer, cred: Cred) -> Made
    ensures { result ≡ spec.made answer cred }
{
    Made {
        answer,
        cred,
        gains: Gains {
            file: CapSet::empty(),
            inherit: CapSet::empty(),
            root: CapSet::empty(),
        },
    }
}

/// What the execve of a file makes of a credential, and what that gains.
fn made_by_execve(
    cred: &Cred,
    file: &FileInfo,
    chain: &[Id],
) -> Result<Result<Made, Answer>, NoMemory>
    ensures { IfOk result (λ made. made ≡ spec.made_by_exec (exec cred.now file.now chain.now)) }
{
    match exec(cred, file, chain) {
        Ok((cred, gains)) => Ok(Ok(Made {
            answer: Answer::Done,
            cred,
            gains,
        })),
        Err(ExecRefusal::Access) => Ok(Err(Answer::Eacces)),
        Err(ExecRefusal::BadAttribute) => Ok(Err(Answer::Einval)),
        Err(ExecRefusal::Perm) => Ok(Err(Answer::Eperm)),
        Err(ExecRefusal::Memory) => Err(NoMemory),
    }
}

/// What a change makes of a credential, which stays as it is, or the answer of its refusal: `Eperm`
/// and `Einval` where `cred_adjust::apply` refuses by `Perm` and `Invalid`. setfsuid(2) and
/// setfsgid(2) are never refused, and answer the filesystem id before. execve(2) is refused by
/// `Eacces`, `Einval` and `Eperm` where `cred_exec::exec` refuses by `Access`, `BadAttribute` and
/// `Perm`. access(2) makes the credential that it asks by, and is never refused.
///
/// `file` is the file that the change names, if it names one (without it an execve is `Eacces`),
/// and `chain` has the root ids of the credential's user namespace and of that one's ancestors, the
/// nearest first (user_namespaces(7)).
///
/// # Errors
///
/// `NoMemory` where the credential could not be copied, which an execve of no file doesn't ask for.
pub fn change(
    cred: &Cred,
    file: Option<&FileInfo>,
    chain: &[Id],
    change: &Change,
) -> Result<Result<Made, Answer>, NoMemory>
    ensures made { IfOk result (λ made. made
        ≡ spec.by_change (option_map (λ file. file.now) file.entry) chain.now cred.now change.now) }
    ensures memory { OnErr result
        (makes_credential (option_map (λ file. file.now) file.entry) change.now ≡ true) }
{
    match change {
        Change::SetFs(kind, arg) => {
            let (new, previous) = setfs(cred, *kind, *arg)?;
            Ok(Ok(without_gains(Answer::Was { previous }, new)))
        }
        Change::Adjust(call) => match apply(cred, call) {
            Ok(new) => Ok(Ok(without_gains(Answer::Done, new))),
            Err(refusal) => Ok(Err(refusal_answer(refusal)?)),
        },
        Change::Exec { .. } => match file {
            Some(file) => made_by_execve(cred, file, chain),
            None => Ok(Err(Answer::Eacces)),
        },
        Change::Access => Ok(Ok(without_gains(Answer::Done, access_cred(cred)?))),
    }
}

/// What a commit answers, by the change and by what the new credential gains. That was sealed under
/// the number `cred` in `slot`, and `ended` tasks ended.
pub fn committed_by(change: Change, gains: &Gains, cred: u64, slot: u32, ended: u32) -> Answer
    ensures { result ≡ committed_by change gains.now cred slot ended }
{
    match change {
        Change::Exec { .. } => Answer::Executed {
            cred,
            slot,
            ended,
            gains: *gains,
        },
        _ => Answer::Sealed { cred, slot },
    }
}
