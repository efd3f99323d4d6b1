//! The entries of a script's journals have the answers that the rules give.
ghost use Rattle.cred_laws.specs.Answered.{InOrderIsAnswered, SoFarIsAnswered};

/// In a journal in which all lines run whole and in the script's order, as far as it goes, each
/// entry has the answer that the rules give to its event after the entries before it.
#[tactic(auto, using(crate::proofs::AnsweredLaws::in_order_is_answered))]
pub fn in_order_is_answered()
    ensures { InOrderIsAnswered }
{}

/// In a journal whose lanes take turns, as far as it goes, each entry has the answer that the
/// rules give to its event after the entries before it.
#[tactic(auto, using(crate::proofs::AnsweredLaws::so_far_is_answered))]
pub fn so_far_is_answered()
    ensures { SoFarIsAnswered }
{}
