//! The events of labels: a label holds a credential, prepares one and commits it, and a task acts
//! with what a label holds.
mod holds;
mod overrides;
mod prepare;
