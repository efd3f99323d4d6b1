//! What a record says.
use cred_caps::CapSet;

/// What a record of capget(2) or capset(2) says.
#[derive(Clone, Copy, PartialEq, Eq, Debug)]
pub struct CapData {
    /// The version: 1, 2 or 3. A record of version 1 has the capabilities 0 to 31 alone.
    pub version: u8,
    /// The task that it is about: 0 for the caller.
    pub target: u32,
    /// The permitted set.
    pub perm: CapSet,
    /// The inheritable set.
    pub inh: CapSet,
    /// The effective set.
    pub eff: CapSet,
}
