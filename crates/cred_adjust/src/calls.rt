//! All calls that change the capability sets and the bits of a task.
ghost use Rattle.cred_record.specs.Answer.{AnswersBy};
ghost use Rattle.cred_rules.specs.Adjust.{adjust};

use crate::ambient::{clear_ambient, lower_ambient, raise_ambient};
use crate::bits::{set_bits, set_keep_caps, set_no_new_privs};
use crate::bounding::drop_bound;
use crate::capset::set_caps;
use cred_record::{AdjCall, Cred, Refusal};

/// The credential after a call that changes the capability sets, the securebits or no_new_privs
/// (capset(2), prctl(2), capabilities(7)). All else is as in `cred`, which stays as it is. A number
/// of the call may be any `u32`.
///
/// # Errors
///
/// `Perm` comes:
///
/// - for capset where the new inheritable set is not within the old inheritable and bounding sets,
///   or, without CAP_SETPCAP, not within the old inheritable and permitted sets; where the new
///   permitted set is not within the old one; where the new effective set is not within the new
///   permitted one;
/// - for a drop from the bounding set without CAP_SETPCAP, also where the number names no
///   capability;
/// - for a raise in the ambient set of a capability that is not permitted or not inheritable, or
///   while NO_CAP_AMBIENT_RAISE is set;
/// - for securebits without CAP_SETPCAP, above `LAST_BITS`, with a lock unset that was set, or with
///   a flag changed whose lock was set;
/// - for KEEP_CAPS while its lock is set.
///
/// `Invalid` comes for a number above 40 where a capability is named, for KEEP_CAPS with another
/// number than 0 and 1, tested before its lock, and for no_new_privs with another number than 1.
///
/// `Memory` comes if the groups could not be copied, where neither of the others does.
pub fn apply(cred: &Cred, call: &AdjCall) -> Result<Cred, Refusal>
    ensures { AnswersBy result (adjust cred.now call.now) }
{
    match *call {
        AdjCall::Capset { perm, inh, eff } => set_caps(cred, perm, inh, eff),
        AdjCall::BoundDrop(n) => drop_bound(cred, n),
        AdjCall::AmbRaise(n) => raise_ambient(cred, n),
        AdjCall::AmbLower(n) => lower_ambient(cred, n),
        AdjCall::AmbClear => Ok(clear_ambient(cred)?),
        AdjCall::Bits(n) => set_bits(cred, n),
        AdjCall::KeepCaps(n) => set_keep_caps(cred, n),
        AdjCall::NoNewPrivs(n) => set_no_new_privs(cred, n),
    }
}
