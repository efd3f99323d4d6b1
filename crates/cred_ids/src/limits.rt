//! The limits: how many there may be of each thing. What happens at a limit is documented where it
//! is tested. No other constant of the program is a limit.
ghost use Rattle.std.specs.Prelude.{◌≡◌};
ghost use Rattle.cred_ids.specs.Limits as limits;

/// How many bytes a script may have.
pub const BYTE_LIMIT: u32 = 1_048_576;

/// How many lines a script may have, and so the greatest number of a line.
pub const LINE_LIMIT: usize = 20_000;

/// How many bytes an input of `audit` may have, its report among them.
pub const AUDIT_LIMIT: u32 = 402_653_184;

/// How many files a script may declare.
pub const FILES: usize = 256;

/// The last number of a lane; the first is 1.
pub const LAST_LANE: u32 = 16;

/// The last number of a user namespace; the initial one is 0.
pub const LAST_NAMESPACE: u32 = 15;

/// The last number that a script gives a task, a process, a label or a descriptor; the first is 1.
pub const LAST_NUMBER: u32 = 99_999;

/// The labels that line n takes for itself begin at this number plus n times `LABELS_A_LINE`.
pub const FIRST_LINE_LABEL: u32 = 100_000;

/// How many labels each line may take for itself.
pub const LABELS_A_LINE: u32 = 10;

/// How often a line tries to change a credential, where another change comes before its commit.
pub const TRIES: u8 = 8;

/// How many supplementary groups a task may have (setgroups(2)), where Linux has 65,536.
pub const GROUP_LIMIT: usize = 1024;

/// How many tasks may be alive.
pub const TASKS: usize = 64;

/// How many overrides one task may have.
pub const DEPTH: usize = 8;

/// How many files may be open.
pub const OPEN_FILES: usize = 256;

/// How many labels may hold a credential.
pub const HOLDS: usize = 512;

/// How many labels may prepare one.
pub const PREPARED: usize = 64;

/// How many slots there are for credentials.
pub const SLOTS: usize = 256;

/// Each constant is the definitions' limit.
pub fn limits_are_the_definitions()
    ensures bytes { BYTE_LIMIT ≡ limits.BYTE_LIMIT }
    ensures lines { LINE_LIMIT ≡ limits.LINE_LIMIT }
    ensures audited { AUDIT_LIMIT ≡ limits.AUDIT_LIMIT }
    ensures files { FILES ≡ limits.FILES }
    ensures lanes { LAST_LANE ≡ limits.LAST_LANE }
    ensures namespaces { LAST_NAMESPACE ≡ limits.LAST_NAMESPACE }
    ensures numbers { LAST_NUMBER ≡ limits.LAST_NUMBER }
    ensures first_label { FIRST_LINE_LABEL ≡ limits.FIRST_LINE_LABEL }
    ensures labels { LABELS_A_LINE ≡ limits.LABELS_A_LINE }
    ensures tries { TRIES ≡ limits.TRIES }
    ensures groups { GROUP_LIMIT ≡ limits.GROUP_LIMIT }
    ensures tasks { TASKS ≡ limits.TASKS }
    ensures depth { DEPTH ≡ limits.DEPTH }
    ensures open_files { OPEN_FILES ≡ limits.OPEN_FILES }
    ensures holds { HOLDS ≡ limits.HOLDS }
    ensures prepared { PREPARED ≡ limits.PREPARED }
    ensures slots { SLOTS ≡ limits.SLOTS }
{}
