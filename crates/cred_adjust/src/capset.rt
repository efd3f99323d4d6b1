//! capset(2).
ghost use Rattle.std.specs.Prelude.{◌≡◌};
ghost use Rattle.cred_record.specs.Answer.{AnswersBy};
ghost use Rattle.cred_rules.specs.Adjust.{may_capset, after_capset};

use cred_caps::{Cap, CapSet};
use cred_record::{Cred, Refusal, copy};

/// Whether the caller may have these sets.
fn may_set_caps(cred: &Cred, perm: &CapSet, inh: &CapSet, eff: &CapSet) -> bool
    ensures { result ≡ may_capset cred.now perm.now inh.now eff.now }
{
    let bounded = inh.within(&cred.inh.union(&cred.bound));
    let own = cred.eff.has(Cap::SETPCAP) || inh.within(&cred.inh.union(&cred.perm));
    bounded && own && perm.within(&cred.perm) && eff.within(perm)
}

/// The credential with these permitted, inheritable and effective sets. The ambient set is cut to
/// what is still permitted and inheritable.
///
/// # Errors
///
/// `Perm` where the caller may not have these sets (capset(2)); then `Memory` if the groups could
/// not be copied.
#[tactic(auto, unfolding(cred_rules::specs::Adjust::after_capset))]
pub fn set_caps(cred: &Cred, perm: CapSet, inh: CapSet, eff: CapSet) -> Result<Cred, Refusal>
    ensures { AnswersBy result (after_capset cred.now perm inh eff) }
{
    if !may_set_caps(cred, &perm, &inh, &eff) {
        return Err(Refusal::Perm);
    }
    let mut new = copy(cred)?;
    new.perm = perm;
    new.inh = inh;
    new.eff = eff;
    new.amb = cred.amb.meet(&perm).meet(&inh);
    #[tactic(auto, using(cred_caps::proofs::SetLaws::within))]
    Ok(new)
}
