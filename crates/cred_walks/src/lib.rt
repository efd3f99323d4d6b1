//! Tests of the book by its own calls: generated scripts whose journals are walked by hand, and
//! what an open broadcast refuses though no script reaches it. There is no code here beside the
//! tests: a crate with tests is proved twice.
#![tactic(auto)]

#[cfg(test)]
mod tests;
