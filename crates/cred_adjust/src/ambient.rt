//! The ambient set (prctl(2), PR_CAP_AMBIENT; capabilities(7)).
ghost use Rattle.std.specs.Prelude.{◌≡◌, IfOk};
ghost use Rattle.cred_caps.specs.Caps.{empty};
ghost use Rattle.cred_record.specs.Answer.{AnswersBy};
ghost use Rattle.cred_rules.specs.Adjust.{may_raise, after_amb_raise, after_amb_lower, amb_is_set};

use cred_caps::{Cap, CapSet, Flag};
use cred_ids::NoMemory;
use cred_record::{Cred, Refusal, copy};

/// Whether the capability may become ambient.
fn may_raise(cred: &Cred, cap: Cap) -> bool
    ensures { result ≡ may_raise cred.now cap }
{
    cred.perm.has(cap) && cred.inh.has(cap) && !cred.bits.flag(Flag::NoAmbientRaise)
}

/// The credential with capability n added to the ambient set.
///
/// # Errors
///
/// `Invalid` above 40; then `Perm` where the capability is not permitted or not inheritable, and
/// while NO_CAP_AMBIENT_RAISE is set; then `Memory` if the groups could not be copied.
#[tactic(auto, unfolding(cred_rules::specs::Adjust::after_amb_raise))]
pub fn raise_ambient(cred: &Cred, n: u32) -> Result<Cred, Refusal>
    ensures { AnswersBy result (after_amb_raise cred.now n) }
{
    let cap = Cap::new(n).ok_or(Refusal::Invalid)?;
    if !may_raise(cred, cap) {
        return Err(Refusal::Perm);
    }
    let mut new = copy(cred)?;
    new.amb = cred.amb.with(cap);
    #[tactic(auto, using(cred_caps::proofs::SetLaws::with_within))]
    Ok(new)
}

/// The credential with capability n taken out of the ambient set.
///
/// # Errors
///
/// `Invalid` above 40; then `Memory` if the groups could not be copied.
#[tactic(auto, unfolding(cred_rules::specs::Adjust::after_amb_lower))]
pub fn lower_ambient(cred: &Cred, n: u32) -> Result<Cred, Refusal>
    ensures { AnswersBy result (after_amb_lower cred.now n) }
{
    let cap = Cap::new(n).ok_or(Refusal::Invalid)?;
    let mut new = copy(cred)?;
    new.amb = cred.amb.without(cap);
    #[tactic(auto, using(cred_caps::proofs::SetLaws::within))]
    Ok(new)
}

/// The credential with an empty ambient set.
///
/// # Errors
///
/// `NoMemory` if the groups could not be copied.
pub fn clear_ambient(cred: &Cred) -> Result<Cred, NoMemory>
    ensures { IfOk result (λ new. new ≡ record cred.now { amb = empty }) }
{
    let mut new = copy(cred)?;
    new.amb = CapSet::empty();
    Ok(new)
}

/// Whether capability n is in the ambient set. `None` exactly above 40, where prctl(2) answers
/// EINVAL.
pub fn amb_is_set(cred: &Cred, n: u32) -> Option<bool>
    ensures { result ≡ amb_is_set cred.now n }
{
    Some(cred.amb.has(Cap::new(n)?))
}
