//! The rules, as definitions alone: what each call makes of a credential or of a file, what a check
//! decides, what an attribute says.
//!
//! `specs/SetId.antt`, `specs/Fix.antt`, `specs/SetFs.antt`, `specs/Adjust.antt`,
//! `specs/Exec.antt`, `specs/Access.antt`, `specs/Ptrace.antt`, `specs/Modes.antt`,
//! `specs/Files.antt` and `specs/Attribute.antt` have them; `specs/Bits.antt` says how they read
//! the bits of a word.
//! The crates that do the work are proved against them.
#![tactic(auto)]
