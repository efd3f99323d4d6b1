//! The tests, a module for each kind.
mod copies;
mod crowd;
mod cuts;
mod ends;
mod faults;
mod gate;
mod lanes;
mod meetings;
mod reading;
mod runs;
