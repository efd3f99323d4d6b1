//! Where each word of a credential stands, when a credential is laid out in words of 64 bits.
//! `specs/Words.antt` says what each word holds.
ghost use Rattle.std.specs.Prelude.{◌≡◌};
ghost use Rattle.cred_ids.specs.Limits as limits;

/// The number of words of a credential.
pub const WORDS: usize = 524;

/// The real and the effective user id.
pub const USER: usize = 0;

/// The saved and the filesystem user id.
pub const SAVED_USER: usize = 1;

/// The real and the effective group id.
pub const GROUP: usize = 2;

/// The saved and the filesystem group id.
pub const SAVED_GROUP: usize = 3;

/// The permitted set.
pub const PERMITTED: usize = 4;

/// The inheritable set.
pub const INHERITABLE: usize = 5;

/// The effective set.
pub const EFFECTIVE: usize = 6;

/// The bounding set.
pub const BOUNDING: usize = 7;

/// The ambient set.
pub const AMBIENT: usize = 8;

/// The securebits, no_new_privs and the number of groups.
pub const FLAGS: usize = 9;

/// The number of the user namespace.
pub const NAMESPACE: usize = 10;

/// The user id of root in that namespace.
pub const ROOT: usize = 11;

/// The first of the words of groups, which are the rest.
pub const GROUPS: usize = 12;

/// The number of words is the definitions'.
pub fn words_are_the_definitions()
    ensures { WORDS ≡ limits.WORDS }
{}
