//! The places of the words of a record, each by that of its first byte.

/// The version.
pub const VERSION: usize = 0;

/// Whom it is about.
pub const TARGET: usize = 4;

/// The effective set, capabilities 0 to 31.
pub const EFF: usize = 8;

/// The permitted set, capabilities 0 to 31.
pub const PERM: usize = 12;

/// The inheritable set, capabilities 0 to 31.
pub const INH: usize = 16;

/// How far after the low word of a set its high word stands.
pub const HIGH: usize = 12;
