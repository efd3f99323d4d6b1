//! Questions about a credential that is held.
ghost use Rattle.std.specs.Prelude.{◌≡◌, true, if◌then◌else◌, IfOk, OnErr};
ghost use Rattle.std.specs.Option.{option_map};
ghost use Rattle.cred_event.specs.declared.answer.Answer.TheVariants.{Done, Eacces};
ghost use Rattle.cred_rules.specs.Adjust.{read_in};
ghost use Rattle.cred_model.specs.Answers.{checked, flag, reply};
ghost use Rattle.cred_work.specs.Questions.{is_on_whole};

use crate::pause::Pause;
use cred_access::may_by;
use cred_caps::{Cap, CapSet};
use cred_decide::reply;
use cred_event::{Answer, Query, Told};
use cred_hold::{Cells, HoldToken, read, read_caps, read_groups, read_ids};
use cred_ids::NoMemory;
use cred_record::{FileInfo, Want};
use std::alloc::Global;

/// The answer to a question about the credential that is held, as `cred_decide::reply` has it.
/// `file` is the file that the question names, if it names one. The opening of a file is decided as
/// its check is. The hold stays as it was. It waits for nobody but `pause`, which it calls once the
/// words have been read, before anything is decided by them.
///
/// # Errors
///
/// `NoMemory` where the groups or the whole credential are read, as `is_on_whole` of
/// `specs/Questions.antt` says, and an allocation fails. A question about ids or about capability
/// sets takes no memory.
#[inline(always)]
pub fn decide<P: Pause>(
    alloc: Global,
    cells: &Cells,
    pause: &P,
    hold: &mut HoldToken,
    query: Query,
    file: Option<&FileInfo>,
) -> Result<Answer, NoMemory>
    requires own { hold.old.id ≡ cells.now }
    ensures told { IfOk result (λ answer. answer
        ≡ reply (option_map (λ file. file.now) file.entry) hold.old.cred query) }
    ensures memory { OnErr result (is_on_whole query ≡ true) }
    ensures same { hold.new ≡ hold.old }
{
    let told = match query {
        Query::Ids => {
            let (uid, gid) = read_ids(cells, hold);
            pause.pause();
            Told::Ids { uid, gid }
        }
        Query::Caps => {
            let [perm, inh, eff, bound, amb] = read_caps(cells, hold);
            pause.pause();
            Told::Caps {
                perm,
                inh,
                eff,
                bound,
                amb,
            }
        }
        Query::Capable(n) => {
            let [_, _, eff, _, _] = read_caps(cells, hold);
            pause.pause();
            return Ok(flag(eff, n));
        }
        Query::Bset(n) => {
            let [_, _, _, bound, _] = read_caps(cells, hold);
            pause.pause();
            return Ok(flag(bound, n));
        }
        Query::AmbIs(n) => {
            let [_, _, _, _, amb] = read_caps(cells, hold);
            pause.pause();
            return Ok(flag(amb, n));
        }
        Query::Check { want, .. } => return check(alloc, cells, pause, hold, file, want),
        Query::Groups | Query::Bits => return on_whole(alloc, cells, pause, hold, query, file),
    };
    Ok(Answer::Told(told))
}

/// The answer to a question for which the whole credential is read.
// Not inlined, since each other question would pay for the room of a credential.
#[inline(never)]
fn on_whole<P: Pause>(
    alloc: Global,
    cells: &Cells,
    pause: &P,
    hold: &mut HoldToken,
    query: Query,
    file: Option<&FileInfo>,
) -> Result<Answer, NoMemory>
    requires own { hold.old.id ≡ cells.now }
    ensures told { IfOk result (λ answer. answer
        ≡ reply (option_map (λ file. file.now) file.entry) hold.old.cred query) }
    ensures same { hold.new ≡ hold.old }
{
    let cred = read(alloc, cells, hold)?;
    pause.pause();
    reply(alloc, file, &cred, query)
}

/// The answer to the check of a file, by the parts of the credential that the check asks of.
#[inline(always)]
fn check<P: Pause>(
    alloc: Global,
    cells: &Cells,
    pause: &P,
    hold: &mut HoldToken,
    file: Option<&FileInfo>,
    want: Want,
) -> Result<Answer, NoMemory>
    requires own { hold.old.id ≡ cells.now }
    ensures told { IfOk result (λ answer. answer
        ≡ checked hold.old.cred (option_map (λ file. file.now) file.entry) want) }
    ensures same { hold.new ≡ hold.old }
{
    if may_open(alloc, cells, pause, hold, file, want)? {
        Ok(Answer::Done)
    } else {
        Ok(Answer::Eacces)
    }
}

/// Whether the file may be opened so, by the parts of the credential that this asks of: `false`
/// where there is no file. It calls `pause` once they have been read.
///
/// # Errors
///
/// `NoMemory` if the allocation of the groups fails.
#[inline(always)]
pub fn may_open<P: Pause>(
    alloc: Global,
    cells: &Cells,
    pause: &P,
    hold: &mut HoldToken,
    file: Option<&FileInfo>,
    want: Want,
) -> Result<bool, NoMemory>
    requires own { hold.old.id ≡ cells.now }
    ensures may { IfOk result (λ may.
        checked hold.old.cred (option_map (λ file. file.now) file.entry) want
        ≡ (if may then Done else Eacces)) }
    ensures same { hold.new ≡ hold.old }
{
    let Some(file) = file else {
        return Ok(false);
    };
    let (uid, gid) = read_ids(cells, hold);
    let [_, _, effective, _, _] = read_caps(cells, hold);
    let groups = read_groups(alloc, cells, hold)?;
    pause.pause();
    Ok(may_by(&uid, &gid, &groups, effective, file, want))
}

/// The answer to the question whether capability n is in the set: a number above 40 is refused.
fn flag(set: CapSet, n: u32) -> Answer
    ensures { result ≡ flag (read_in set n) }
{
    match Cap::new(n) {
        Some(cap) => Answer::Told(Told::Flag(set.has(cap))),
        None => Answer::Einval,
    }
}
