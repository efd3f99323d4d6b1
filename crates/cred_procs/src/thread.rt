//! What is kept of one task.
use cred_slots::Stack;

/// A task, but for its number: its process, the number of its current credential, and the numbers
/// of the credentials that it acts with in its place.
#[derive(Drop, Debug)]
pub struct Thread {
    pub process: u32,
    pub current: u64,
    pub overrides: Stack,
}
