//! Tests of what no case in `cases/` can ask: faults of the source and the sink of the program's
//! top call, both in memory; lanes that a gate holds; texts of entries that are read back, and
//! printed as they were; and calls below the top call. There is no code here beside the tests: a
//! crate with tests is proved twice.
#![tactic(auto)]

#[cfg(test)]
mod tests;
