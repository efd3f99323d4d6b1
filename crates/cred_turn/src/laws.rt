//! The rule of the passes, point by point. There is nothing to run.
ghost use Rattle.cred_turn.specs.Points.{PassRuleHasPoints};

/// Wherever the rule holds, so do its points as `specs/Points.antt` states them.
#[tactic(auto, using(crate::proofs::Points::rule_has_points))]
pub fn rule_has_points()
    ensures { PassRuleHasPoints }
{}
