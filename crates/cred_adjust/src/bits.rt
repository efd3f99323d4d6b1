//! The securebits and no_new_privs (prctl(2), PR_SET_SECUREBITS, PR_SET_KEEPCAPS and
//! PR_SET_NO_NEW_PRIVS; capabilities(7), "The securebits flags").
ghost use Rattle.std.specs.Prelude.{◌≡◌};
ghost use Rattle.std.specs.List.{list_all};
ghost use Rattle.cred_record.specs.Answer.{AnswersBy};
ghost use Rattle.cred_rules.specs.Adjust.{FLAGS, keeps_lock, after_bits, after_keep_caps};
ghost use Rattle.cred_rules.specs.Adjust.{after_no_new_privs};

use cred_caps::{Cap, Flag, SecureBits};
use cred_record::{Cred, Refusal, copy};

/// Every flag.
const FLAGS: [Flag; 4] = [
    Flag::NoRoot,
    Flag::NoSetuidFixup,
    Flag::KeepCaps,
    Flag::NoAmbientRaise,
];

/// Whether a lock that is set stays set from the old to the new bits, and its flag stays as it is.
fn keeps_lock(old: SecureBits, new: SecureBits, f: Flag) -> bool
    ensures { result ≡ keeps_lock old new f }
{
    !old.locked(f) || new.locked(f) && old.flag(f) == new.flag(f)
}

/// Whether that holds for each flag.
fn keeps_locks(old: SecureBits, new: SecureBits) -> bool
    ensures { result ≡ list_all (keeps_lock old new) FLAGS }
{
    FLAGS.iter().all(|f| keeps_lock(old, new, *f))
}

/// The credential with all securebits as n has them.
///
/// # Errors
///
/// `Perm` without CAP_SETPCAP, above `LAST_BITS`, with a lock unset that was set, and with a flag
/// changed whose lock was set; then `Memory` if the groups could not be copied.
#[tactic(auto, unfolding(cred_rules::specs::Adjust::after_bits))]
pub fn set_bits(cred: &Cred, n: u32) -> Result<Cred, Refusal>
    ensures { AnswersBy result (after_bits cred.now n) }
{
    if !cred.eff.has(Cap::SETPCAP) {
        return Err(Refusal::Perm);
    }
    let bits = SecureBits::new(n).ok_or(Refusal::Perm)?;
    if !keeps_locks(cred.bits, bits) {
        return Err(Refusal::Perm);
    }
    let mut new = copy(cred)?;
    new.bits = bits;
    Ok(new)
}

/// The credential with KEEP_CAPS set or unset.
///
/// # Errors
///
/// `Invalid` for another number than 0 and 1; then `Perm` while the flag is locked; then `Memory`
/// if the groups could not be copied.
#[tactic(auto, unfolding(cred_rules::specs::Adjust::after_keep_caps))]
pub fn set_keep_caps(cred: &Cred, n: u32) -> Result<Cred, Refusal>
    ensures { AnswersBy result (after_keep_caps cred.now n) }
{
    if n > 1 {
        return Err(Refusal::Invalid);
    }
    if cred.bits.locked(Flag::KeepCaps) {
        return Err(Refusal::Perm);
    }
    let mut new = copy(cred)?;
    new.bits = cred.bits.with(Flag::KeepCaps, n == 1);
    Ok(new)
}

/// The credential with no_new_privs set.
///
/// # Errors
///
/// `Invalid` for another number than 1; then `Memory` if the groups could not be copied.
#[tactic(auto, unfolding(cred_rules::specs::Adjust::after_no_new_privs))]
pub fn set_no_new_privs(cred: &Cred, n: u32) -> Result<Cred, Refusal>
    ensures { AnswersBy result (after_no_new_privs cred.now n) }
{
    if n != 1 {
        return Err(Refusal::Invalid);
    }
    let mut new = copy(cred)?;
    new.nnp = true;
    Ok(new)
}
