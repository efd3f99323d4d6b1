//! The capability sets after a change of the user ids (capabilities(7), "Effect of user ID changes
//! on capabilities").
ghost use Rattle.std.specs.Prelude.{◌≡◌, ◌==◌, ◌||◌};
ghost use Rattle.cred_caps.specs.Caps.{Caps};
ghost use Rattle.cred_record.specs.Credential.{Credential, AreValidSets};
ghost use Rattle.cred_rules.specs.Fix.{with_user_ids};
ghost use Rattle.cred_setid.specs.Parts.{alike, with_parts};

use crate::parts::IdParts;
use cred_caps::{CapSet, Flag};
use cred_ids::{Id, Ids4};

/// Whether the real, the effective or the saved id is root, which has this user id in the task's
/// namespace.
fn has_root(root: Id, ids: &Ids4) -> bool
    ensures { result ≡ ((ids.now.real == root) || (ids.now.effective == root)
        || (ids.now.saved == root)) }
{
    ids.real == root || ids.effective == root || ids.saved == root
}

/// The sets that a change of the user ids may change.
#[derive(Clone, Copy)]
struct FixedSets {
    perm: CapSet,
    eff: CapSet,
    amb: CapSet,
}

/// The sets that a credential with these parts has with these user ids.
#[inline(always)]
#[tactic(auto, unfolding(cred_rules::specs::Fix::with_user_ids))]
fn fixed(own: &IdParts, ids: &Ids4) -> FixedSets
    ensures sets { (c : Credential) → with_user_ids (alike c own.now) ids.now
        ≡ record (alike c own.now) {
          uid = ids.now;
          perm = result.perm;
          eff = result.eff;
          amb = result.amb;
        } }
    ensures valid { (inh : Caps) → AreValidSets own.now.perm inh own.now.eff own.now.amb →
        AreValidSets result.perm inh result.eff result.amb }
{
    if own.bits.flag(Flag::NoSetuidFixup) {
        return FixedSets {
            perm: own.perm,
            eff: own.eff,
            amb: own.amb,
        };
    }
    let was_root = own.uid.effective == own.root;
    let is_root = ids.effective == own.root;
    let lost = has_root(own.root, &own.uid) && !has_root(own.root, ids);
    let cleared = lost && !own.bits.flag(Flag::KeepCaps);
    let perm = if cleared { CapSet::empty() } else { own.perm };
    let amb = if lost { CapSet::empty() } else { own.amb };
    let eff = if cleared || was_root && !is_root {
        CapSet::empty()
    } else if !was_root && is_root {
        perm
    } else {
        own.eff
    };
    FixedSets { perm, eff, amb }
}

/// Gives the parts these user ids, and the sets that they then have.
#[inline(always)]
pub fn set_user_ids(own: &mut IdParts, ids: Ids4)
    ensures ids { (c : Credential) → with_user_ids (alike c own.old) ids
        ≡ with_parts (alike c own.old) own.new }
    ensures valid { (inh : Caps) → AreValidSets own.old.perm inh own.old.eff own.old.amb →
        AreValidSets own.new.perm inh own.new.eff own.new.amb }
{
    let sets = fixed(own, &ids);
    own.uid = ids;
    own.perm = sets.perm;
    own.eff = sets.eff;
    own.amb = sets.amb;
}
