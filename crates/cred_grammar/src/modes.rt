//! How a task asks to look into another.
ghost use Rattle.cred_grammar.specs.Modes as spec;

use cred_record::PtraceMode;
use cred_spelling::{Spelling, named};

/// `fs` or `real` (ptrace(2), "Ptrace access mode checking").
pub enum AccessMode {}

static MODES: [(&str, PtraceMode); 2] = [("fs", PtraceMode::Fs), ("real", PtraceMode::Real)];

impl Spelling for AccessMode {
    type Value = PtraceMode;

    ghost spelled = { spec.look_mode };

    #[tactic(auto, unfolding(crate::specs::Modes::look_modes))]
    fn of(word: &[u8]) -> Option<PtraceMode> {
        named(&MODES, word)
    }
}
