//! The events of an id call: a task makes the call, and the other threads of its process follow, or
//! it makes it for itself alone.
mod acts;
mod broadcasts;
mod raw;
