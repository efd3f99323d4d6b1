//! What a run may be: definitions alone, in `specs/`. A script's lines, the state of a run,
//! what each event does and answers, the events that a line makes, and the journals of a script.
#![tactic(auto)]
