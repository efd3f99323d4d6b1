//! The events of tasks: a task is created and ends, signals or looks into another, and makes its
//! process dumpable.
mod signals;
mod tasks;
mod traces;
