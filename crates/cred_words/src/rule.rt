//! The rule of the shared words, and what each kind of step reports.
use crate::view::View;
use atomic_table::{Join, Play, Split, TableRule};
use std::marker::{Brand, PhantomData};

/// The rule.
pub struct WordRule;

impl TableRule<(), View, ()> for WordRule {
    ghost use Rattle.cred_words.specs.Words.{WordRuleHolds, first_master};

    ghost holds = { λ _ s. WordRuleHolds s.words s.views };

    ghost first = { λ _. first_master };
}

/// What one call lends, or whether the writer that came back has put. Each call picks it, since a
/// step sees its word and no other argument.
pub trait Order {
    ghost use Rattle.std.specs.Prelude.{ℕ, Bool};

    ghost label: { ℕ };

    ghost slot: { ℕ };

    ghost put: { Bool };
}

impl Order for Brand {
    ghost use Rattle.std.specs.Prelude.{false};

    ghost label = { 0 };

    ghost slot = { 0 };

    ghost put = { false };
}

/// Lends a hold.
pub struct LendsHold<O>(PhantomData<O>);

impl<O: Order> Split<View> for LendsHold<O> {
    ghost use Rattle.std.specs.Prelude.{false};
    ghost use Rattle.cred_words.specs.Words.{after_lending_token, lends};

    ghost left = { after_lending_token O.label O.slot false };

    ghost right = { lends O.label O.slot false };
}

/// Lends a writer.
pub struct LendsWriter<O>(PhantomData<O>);

impl<O: Order> Split<View> for LendsWriter<O> {
    ghost use Rattle.std.specs.Prelude.{true};
    ghost use Rattle.cred_words.specs.Words.{after_lending_token, lends};

    ghost left = { after_lending_token O.label O.slot true };

    ghost right = { lends O.label O.slot true };
}

/// Takes a seat back, and keeps its view aside.
pub struct ReturnsToken;

impl Join<View> for ReturnsToken {
    ghost use Rattle.cred_words.specs.Words.{after_return_of_token};
    ghost use Rattle.cred_words.specs.declared.view.View.TheVariants.{Spent};

    ghost both = { after_return_of_token };

    ghost spent = { Spent };
}

/// Strikes out the loan of the view kept aside.
pub struct LearnsToken<O>(PhantomData<O>);

impl<O: Order> Play<(), View> for LearnsToken<O> {
    ghost use Rattle.std.specs.Prelude.{◌≡◌};
    ghost use Rattle.cred_words.specs.Words.{LearnedToken};

    ghost then = { λ _ v _ w. LearnedToken O.put v.0 w.0 × (w.1 ≡ v.1) };
}

/// Loads a word of a slot that is held or written.
pub struct Loads;

impl Play<(), View> for Loads {
    ghost use Rattle.std.specs.Prelude.{◌≡◌};
    ghost use Rattle.cred_words.specs.Words.{LoadsAt};

    ghost then = { λ step v n w. (w.0 ≡ v.0) × LoadsAt step.word v.0 n × (w.1 ≡ v.1) };
}

/// Stores a word of a slot that is written.
pub struct Stores;

impl Play<(), View> for Stores {
    ghost use Rattle.std.specs.Prelude.{◌≡◌};
    ghost use Rattle.cred_words.specs.Words.{StoresAt};

    ghost then = { λ step v _ w. StoresAt step.word step.first v.0 w.0 × (w.1 ≡ v.1) };
}
