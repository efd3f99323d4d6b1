//! The bounding set (prctl(2), PR_CAPBSET_DROP and PR_CAPBSET_READ).
ghost use Rattle.std.specs.Prelude.{◌≡◌};
ghost use Rattle.cred_record.specs.Answer.{AnswersBy};
ghost use Rattle.cred_rules.specs.Adjust.{after_bound_drop, bset_read};

use cred_caps::Cap;
use cred_record::{Cred, Refusal, copy};

/// The credential with capability n dropped from the bounding set.
///
/// # Errors
///
/// `Perm` without CAP_SETPCAP; then `Invalid` above 40; then `Memory` if the groups could not be
/// copied.
#[tactic(auto, unfolding(cred_rules::specs::Adjust::after_bound_drop))]
pub fn drop_bound(cred: &Cred, n: u32) -> Result<Cred, Refusal>
    ensures { AnswersBy result (after_bound_drop cred.now n) }
{
    if !cred.eff.has(Cap::SETPCAP) {
        return Err(Refusal::Perm);
    }
    let cap = Cap::new(n).ok_or(Refusal::Invalid)?;
    let mut new = copy(cred)?;
    new.bound = cred.bound.without(cap);
    Ok(new)
}

/// Whether capability n is in the bounding set. `None` exactly above 40, where prctl(2) answers
/// EINVAL.
pub fn bset_read(cred: &Cred, n: u32) -> Option<bool>
    ensures { result ≡ bset_read cred.now n }
{
    Some(cred.bound.has(Cap::new(n)?))
}
