//! Tests of values, tables, shared words and streams: what no script can ask. What one can ask is a
//! file in `cases/`. There is no code here beside the tests: a crate with tests is proved twice, so
//! they stand in one crate for all that they call.
#![tactic(auto)]

#[cfg(test)]
mod tests;
