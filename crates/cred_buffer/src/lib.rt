//! The buffer into which the entries of a report are written, one after another, as they are made.
//!
//! Read it as part of `cred_report`, whose definitions say what the text of an entry is. There an
//! entry's text is written from its end to its start, from an entry that is kept; here it is
//! written from its start on, from the parts of the entry, which are kept nowhere. An entry that
//! few lines make is written there, and copied.
#![tactic(auto)]

mod answers;
mod broadcasts;
mod buffer;
mod calls;
mod changes;
mod digits;
mod events;
mod holds;
mod pen;

pub use buffer::ReportBuffer;
