//! What execve added to the permitted set.
use cred_caps::CapSet;

/// The capabilities that the permitted set gained by execve(2), by where they came from
/// (capabilities(7), "Transformation of capabilities during execve()").
#[derive(Clone, Copy, PartialEq, Eq, Debug)]
pub struct Gains {
    /// From the file's permitted set, within the bounding set.
    pub file: CapSet,
    /// From the file's inheritable set, within the task's inheritable set.
    pub inherit: CapSet,
    /// From the rule for root, which takes the file's sets as full.
    pub root: CapSet,
}
