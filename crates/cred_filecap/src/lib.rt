//! The capability attribute of a file, `security.capability` (capabilities(7), "File
//! capabilities"): its bytes read and written, and whether it counts for a task.
#![tactic(auto)]

pub mod caps;
mod chain;
pub mod laws;
mod reading;
pub mod refusal;
mod sets;
mod version;
mod words;
mod writing;

pub use caps::FileCaps;
pub use chain::counts;
pub use reading::decode;
pub use refusal::AttrRefusal;
pub use sets::{SetWords, set_of, words_of};
pub use words::word_at;
pub use writing::encode;
