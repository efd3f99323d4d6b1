//! The calls that change capability sets and securebits.
use cred_caps::CapSet;

/// A call that changes the capability sets, the securebits or no_new_privs of a task (capset(2),
/// prctl(2)). A number is as the caller gave it, in range or not.
#[derive(Clone, Copy, PartialEq, Eq, Debug)]
pub enum AdjCall {
    /// capset(2): sets the permitted, inheritable and effective sets at once.
    Capset {
        /// The new permitted set.
        perm: CapSet,
        /// The new inheritable set.
        inh: CapSet,
        /// The new effective set.
        eff: CapSet,
    },
    /// PR_CAPBSET_DROP: drops a capability from the bounding set.
    BoundDrop(u32),
    /// PR_CAP_AMBIENT_RAISE: adds a capability to the ambient set.
    AmbRaise(u32),
    /// PR_CAP_AMBIENT_LOWER: takes a capability out of the ambient set.
    AmbLower(u32),
    /// PR_CAP_AMBIENT_CLEAR_ALL: empties the ambient set.
    AmbClear,
    /// PR_SET_SECUREBITS: sets all flags and locks.
    Bits(u32),
    /// PR_SET_KEEPCAPS: sets the flag KEEP_CAPS to 0 or 1.
    KeepCaps(u32),
    /// PR_SET_NO_NEW_PRIVS: from then on execve grants nothing that the task could not do before.
    NoNewPrivs(u32),
}
