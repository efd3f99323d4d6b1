//! The nine calls that set ids.
ghost use Rattle.std.specs.Prelude.{◌≡◌};
ghost use Rattle.cred_caps.specs.Caps.{Caps};
ghost use Rattle.cred_record.specs.Credential.{Credential, AreValidSets};
ghost use Rattle.cred_rules.specs.SetId.{after_setgroups, for_groups, for_users, set_id};
ghost use Rattle.cred_setid.specs.Becomes.{BecomesBy};
ghost use Rattle.cred_setid.specs.Parts.{parts_of, alike, PartsBecome};

use crate::fix::set_user_ids;
use crate::ids::{after_seteuid, after_setresuid, after_setreuid, after_setuid};
use crate::parts::{IdParts, parts_of};
use cred_caps::Cap;
use cred_ids::{Groups, GroupsRefusal, Id, Ids4};
use cred_record::{Cred, Denial, IdCall, Refusal};
use std::alloc::Global;

/// Makes a call that sets ids or groups (setuid(2), seteuid(2), setreuid(2), setresuid(2), their
/// group forms, setgroups(2)) on the credential of its caller, which becomes what the call makes of
/// it. The filesystem id of a kind follows its effective id, and a change of user ids also changes
/// the capability sets (capabilities(7)). All else stays.
///
/// # Errors
///
/// `Invalid` where setuid, seteuid, setgid or setegid is given no id, tested first, and where
/// setgroups is given more than 1,024 groups, tested last. `Perm` where a caller without the
/// capability, CAP_SETUID or CAP_SETGID, gives an id that the call lets it have only with it, and
/// for setgroups where the caller is without it. `Memory` if an allocation of the groups fails,
/// where neither of the others comes. The credential then stays as it was.
#[inline(always)]
pub fn apply_to(alloc: Global, cred: &mut Cred, call: &IdCall) -> Result<(), Refusal>
    ensures { BecomesBy cred.old cred.new result (set_id cred.old call.now) }
{
    let mut own = parts_of(cred);
    let groups = apply_parts(alloc, &mut own, call)?;
    cred.uid = own.uid;
    cred.gid = own.gid;
    cred.perm = own.perm;
    cred.eff = own.eff;
    cred.amb = own.amb;
    if let Some(groups) = groups {
        cred.groups = groups;
    }
    Ok(())
}

/// Makes the same call on the parts of a credential, and returns the groups that setgroups sets.
/// So a call looks at these parts of its caller's credential and at nothing else.
///
/// # Errors
///
/// As `apply_to`. The parts then stay as they were.
#[inline(always)]
pub fn apply_parts(
    alloc: Global,
    own: &mut IdParts,
    call: &IdCall,
) -> Result<Option<Groups>, Refusal>
    ensures made { (c : Credential) → parts_of c ≡ own.old →
        PartsBecome c own.old own.new result (set_id c call.now) }
    ensures valid { (c : Credential) → parts_of c ≡ own.old →
        AreValidSets c.perm c.inh c.eff c.amb →
        AreValidSets own.new.perm c.inh own.new.eff own.new.amb }
{
    decide(alloc, own, call)
}

/// The same, for each credential that has these parts.
#[inline(always)]
fn decide(alloc: Global, own: &mut IdParts, call: &IdCall) -> Result<Option<Groups>, Refusal>
    ensures made { (c : Credential) →
        PartsBecome (alike c own.old) own.old own.new result (set_id (alike c own.old) call.now) }
    ensures valid { (inh : Caps) → AreValidSets own.old.perm inh own.old.eff own.old.amb →
        AreValidSets own.new.perm inh own.new.eff own.new.amb }
{
    let setuid = own.eff.has(Cap::SETUID);
    let setgid = own.eff.has(Cap::SETGID);
    let (uid, gid) = (own.uid, own.gid);
    match call {
        IdCall::SetUid(a) => set_users(own, after_setuid(setuid, uid, *a)),
        IdCall::SetEuid(a) => set_users(own, after_seteuid(setuid, uid, *a)),
        IdCall::SetReuid(a, b) => set_users(own, after_setreuid(setuid, uid, *a, *b)),
        IdCall::SetResuid(a, b, d) => set_users(own, after_setresuid(setuid, uid, *a, *b, *d)),
        IdCall::SetGid(a) => set_groups(own, after_setuid(setgid, gid, *a)),
        IdCall::SetEgid(a) => set_groups(own, after_seteuid(setgid, gid, *a)),
        IdCall::SetRegid(a, b) => set_groups(own, after_setreuid(setgid, gid, *a, *b)),
        IdCall::SetResgid(a, b, d) => set_groups(own, after_setresuid(setgid, gid, *a, *b, *d)),
        IdCall::SetGroups(list) => list_of(alloc, own, list.items()),
    }
}

/// Gives the parts these user ids and the sets that follow from them, or passes the denial on.
#[inline(always)]
fn set_users(own: &mut IdParts, ids: Result<Ids4, Denial>) -> Result<Option<Groups>, Refusal>
    ensures made { (c : Credential) →
        PartsBecome (alike c own.old) own.old own.new result (for_users (alike c own.old) ids) }
    ensures valid { (inh : Caps) → AreValidSets own.old.perm inh own.old.eff own.old.amb →
        AreValidSets own.new.perm inh own.new.eff own.new.amb }
{
    set_user_ids(own, ids?);
    Ok(None)
}

/// Gives the parts these group ids, which leave the sets alone, or passes the denial on.
#[inline(always)]
fn set_groups(own: &mut IdParts, ids: Result<Ids4, Denial>) -> Result<Option<Groups>, Refusal>
    ensures made { (c : Credential) →
        PartsBecome (alike c own.old) own.old own.new result (for_groups (alike c own.old) ids) }
    ensures valid { (inh : Caps) → AreValidSets own.old.perm inh own.old.eff own.old.amb →
        AreValidSets own.new.perm inh own.new.eff own.new.amb }
{
    own.gid = ids?;
    Ok(None)
}

/// The groups that setgroups(2) sets.
#[tactic(auto, unfolding(cred_rules::specs::SetId::after_setgroups))]
fn list_of(alloc: Global, own: &IdParts, list: &[Id]) -> Result<Option<Groups>, Refusal>
    ensures { (c : Credential) → PartsBecome (alike c own.now) own.now own.now result
        (after_setgroups (alike c own.now) list.now) }
{
    if !own.eff.has(Cap::SETGID) {
        return Err(Refusal::Perm);
    }
    match Groups::from_list(alloc, list) {
        Ok(groups) => Ok(Some(groups)),
        Err(GroupsRefusal::TooMany(_)) => Err(Refusal::Invalid),
        Err(GroupsRefusal::Memory) => Err(Refusal::Memory),
    }
}
