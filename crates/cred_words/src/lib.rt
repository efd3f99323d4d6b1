//! The words that credentials are shared in, and the rule that they keep. A master lends a slot as
//! a hold, of which there may be many and which reads, or as a writer, which is alone on its slot
//! and puts. The rule holds between any two atomic steps, whichever tokens step.
#![tactic(auto)]

pub mod cells;
pub mod laws;
mod rule;
pub mod view;

pub use cells::{
    Cells, HoldSeat, MasterSeat, WriterSeat, load_own_word, load_word, settle_word, store_word,
};
