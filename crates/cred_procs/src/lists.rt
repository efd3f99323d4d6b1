//! Lists of tasks and of the numbers of credentials.
use cred_ids::Items;

/// The numbers of tasks.
pub type TaskList = Items<u32>;

/// The numbers of credentials.
pub type CredNumbers = Items<u64>;
