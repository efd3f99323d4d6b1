//! The record that capget(2) and capset(2) take: read and written.
#![tactic(auto)]

pub mod data;
pub mod laws;
mod reading;
pub mod refusal;
mod version;
mod words;
mod writing;

pub use data::CapData;
pub use reading::read_data;
pub use refusal::DataRefusal;
pub use writing::write_data;
