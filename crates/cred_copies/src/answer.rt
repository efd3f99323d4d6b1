//! Answers.
ghost use Rattle.std.specs.Prelude.{◌≡◌, IfOk, OnErr};
ghost use Rattle.cred_copies.specs.Lists.{HoldsList, IsTold};
ghost use Rattle.cred_event.specs.declared.answer.Answer.TheVariants as spec;

use cred_event::{Answer, Told};
use cred_ids::NoMemory;

/// An equal answer.
///
/// # Errors
///
/// `NoMemory` where the list of a `Told::Groups` could not be copied; no other answer takes memory.
pub fn copy_answer(a: &Answer) -> Result<Answer, NoMemory>
    ensures equal { IfOk result (λ copied. copied ≡ a.now) }
    ensures refusal { OnErr result (HoldsList a.now) }
{
    match a {
        Answer::Told(told) => Ok(Answer::Told(copy_told(told)?)),
        _ => Ok(copy_plain(a)),
    }
}

/// An equal answer to a question.
fn copy_told(told: &Told) -> Result<Told, NoMemory>
    ensures equal { IfOk result (λ copied. copied ≡ told.now) }
    ensures refusal { OnErr result (HoldsList (spec.Told told.now)) }
{
    match told {
        Told::Groups(list) => Ok(Told::Groups(list.copy()?)),
        Told::Ids { uid, gid } => Ok(Told::Ids {
            uid: *uid,
            gid: *gid,
        }),
        Told::Caps {
            perm,
            inh,
            eff,
            bound,
            amb,
        } => Ok(Told::Caps {
            perm: *perm,
            inh: *inh,
            eff: *eff,
            bound: *bound,
            amb: *amb,
        }),
        Told::Bits { bits, nnp } => Ok(Told::Bits {
            bits: *bits,
            nnp: *nnp,
        }),
        Told::Flag(flag) => Ok(Told::Flag(*flag)),
        Told::File {
            owner,
            group,
            mode,
            attr,
        } => Ok(Told::File {
            owner: *owner,
            group: *group,
            mode: *mode,
            attr: *attr,
        }),
    }
}

/// An equal answer, of one to no question.
fn copy_plain(a: &Answer) -> Answer
    requires { IsTold a.now → ⊥ }
    ensures { result ≡ a.now }
{
    match *a {
        Answer::Done => Answer::Done,
        Answer::Sealed { cred, slot } => Answer::Sealed { cred, slot },
        Answer::Kept { slot } => Answer::Kept { slot },
        Answer::Was { previous } => Answer::Was { previous },
        Answer::Executed {
            cred,
            slot,
            ended,
            gains,
        } => Answer::Executed {
            cred,
            slot,
            ended,
            gains,
        },
        Answer::Began { cred, slot, left } => Answer::Began { cred, slot, left },
        Answer::Acted {
            task,
            cred,
            slot,
            left,
        } => Answer::Acted {
            task,
            cred,
            slot,
            left,
        },
        Answer::Told(_) => unreachable!(),
        Answer::Eperm => Answer::Eperm,
        Answer::Einval => Answer::Einval,
        Answer::Eacces => Answer::Eacces,
        Answer::Ebadf => Answer::Ebadf,
        Answer::NoTask(task) => Answer::NoTask(task),
        Answer::NoHold(label) => Answer::NoHold(label),
        Answer::NoPrepared(label) => Answer::NoPrepared(label),
        Answer::NoBroadcast(broadcast) => Answer::NoBroadcast(broadcast),
        Answer::Busy(broadcast) => Answer::Busy(broadcast),
        Answer::Exists { what, number } => Answer::Exists { what, number },
        Answer::Overridden(depth) => Answer::Overridden(depth),
        Answer::NotOverridden => Answer::NotOverridden,
        Answer::TooDeep => Answer::TooDeep,
        Answer::Stale { base, now } => Answer::Stale { base, now },
        Answer::TooMany(counted) => Answer::TooMany(counted),
        Answer::TableFull => Answer::TableFull,
        Answer::Aborted { task, cause } => Answer::Aborted { task, cause },
    }
}
