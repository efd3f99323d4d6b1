//! What each seat of the table knows. No value of these types is ever made: they stand in clauses
//! and proofs.
use std::collections::LinkedList;

/// A slot as the master knows it. A clause reads the array as a list of any length.
pub struct Slot {
    /// The words that the slot has while no writer is out on it.
    pub words: [u64; 0],
    /// Whether the words are a credential's, to be held.
    pub sealed: bool,
}

/// A token that is lent, or its loan in the master's ledger. The loan of a writer has no words.
pub struct Token {
    /// The number of the loan. In a clause it has no greatest value.
    pub ticket: u64,
    /// What the borrower is called. The rule does not look at it.
    pub label: u32,
    /// The slot.
    pub slot: u32,
    /// Whether it is a writer.
    pub writes: bool,
    /// The words that the slot has.
    pub words: [u64; 0],
}

/// What the master knows.
pub struct Ledger {
    /// The slots.
    pub slots: LinkedList<Slot>,
    /// The ticket of the next loan.
    pub next: u64,
    /// What is lent, the newest first.
    pub loans: LinkedList<Token>,
    /// The token that came back and is not yet struck out.
    pub kept: Option<Token>,
}

/// The view of a seat.
pub enum View {
    /// The master's.
    Master(Ledger),
    /// A hold's or a writer's.
    Lent(Token),
    /// That of a seat that was returned.
    Spent,
}
