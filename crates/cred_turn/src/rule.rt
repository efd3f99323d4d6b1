//! The rule of the passes, and what each of the three kinds of step does to a view.
use crate::view::TurnView;
use atomic_table::{Join, Play, Split, TableRule};
use std::marker::{Brand, PhantomData};

/// The rule. The table gets the number of lanes when it is made.
pub struct PassRule;

impl TableRule<(), TurnView, u32> for PassRule {
    ghost use Rattle.cred_turn.specs.Rule.{PassRuleHolds, first_roll};

    ghost holds = { λ _ s. PassRuleHolds s.words s.views };

    ghost first = { first_roll };
}

/// What one call lends. Each call picks it, since a step sees its view and no argument.
pub trait Order {
    ghost use Rattle.std.specs.Prelude.{ℕ};
    ghost use Rattle.cred_turn.specs.declared.numbers.LaneNumbers.{LaneNumbers};

    ghost lane: { ℕ };

    ghost numbers: { LaneNumbers };
}

impl Order for Brand {
    ghost use Rattle.cred_turn.specs.Rows.{fresh};

    ghost lane = { 0 };

    ghost numbers = { fresh };
}

/// Lends a row.
pub struct LendsPass<O>(PhantomData<O>);

impl<O: Order> Split<TurnView> for LendsPass<O> {
    ghost use Rattle.cred_turn.specs.Rule.{after_lending_pass, pass_of};

    ghost left = { after_lending_pass O.lane O.numbers };

    ghost right = { λ _. pass_of O.lane O.numbers };
}

/// Takes a seat back, and sets its pass aside.
pub struct ReturnsPass;

impl Join<TurnView> for ReturnsPass {
    ghost use Rattle.cred_turn.specs.Rule.{after_return_of_pass};
    ghost use Rattle.cred_turn.specs.declared.view.TurnView.TheVariants.{Spent};

    ghost both = { after_return_of_pass };

    ghost spent = { Spent };
}

/// Finds the row of the pass that was set aside as it was lent, and marks it as not lent.
pub struct LearnsPass;

impl Play<(), TurnView> for LearnsPass {
    ghost use Rattle.std.specs.Prelude.{◌≡◌};
    ghost use Rattle.cred_turn.specs.Rule.{LearnedPass};

    ghost then = { λ _ v _ w. LearnedPass v.0 w.0 × (w.1 ≡ v.1) };
}
