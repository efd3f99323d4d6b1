//! What the order of a script's lines decides.
ghost use Rattle.cred_laws.specs.Order.{OneSequence, SequenceIsLegal, LegalIsSequence};
ghost use Rattle.cred_laws.specs.Order.{SequenceHasLines};

/// For every script there is at most one journal in which its lines run whole and in the script's
/// order, with the answers that the rules give. So what a run in order enters is decided by the
/// script alone.
///
/// It does not say that there is such a journal: that is what a run shows which comes to its end.
#[tactic(auto, using(crate::proofs::OrderLaws::one_sequence))]
pub fn one_sequence()
    ensures { OneSequence }
{}

/// Where the setup's lines come before all others, the journal in which all lines run whole and in
/// order is one of those that the lanes may make when they take turns.
///
/// It does not say that it is the only one: most scripts of several lanes have others.
pub fn sequence_is_legal()
    ensures { SequenceIsLegal }
{}

/// Where the setup's lines come before all others and one lane is opened at most, the lines run
/// whole and in order in every legal journal: with `one_sequence`, such a script has one at most.
/// So whatever runs it legally enters the same.
///
/// It says nothing of a script that opens two lanes: most of those have more.
pub fn legal_is_sequence()
    ensures { LegalIsSequence }
{}

/// Each entry of the journal in which all lines run whole and in order is of a line of the script.
pub fn sequence_has_lines()
    ensures { SequenceHasLines }
{}
