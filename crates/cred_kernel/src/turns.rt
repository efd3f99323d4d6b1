//! The turns: each lane's side of what the roll lends.
ghost use Rattle.std.specs.Prelude.{◌≡◌};

use crate::name::Name;
use cred_turn::{LaneNumbers, Pass};
use std::marker::{Model, PhantomData};

/// A lane's turn: how far the lane has come, and the pass that ties these numbers to the roll's
/// row. Whoever has it is the lane's only worker. The pass is out of it only under the lock.
#[derive(Drop)]
pub struct Turn<K: Name> {
    pub(crate) pass: Option<Pass>,
    pub(crate) lane: u32,
    pub(crate) numbers: LaneNumbers,
    pub(crate) of: PhantomData<K>,
}

impl<K: Name> Model for Turn<K> {
    ghost use Rattle.cred_kernel.specs.Turns.{IsTurn, SeenTurn};

    ghost Value = { SeenTurn };

    ghost view = { λ t. record { lane = t.lane; numbers = t.numbers } };

    ghost invariant = { λ t. IsTurn K.script K.roll t.pass t.lane t.numbers };
}

impl<K: Name> Turn<K> {
    /// The lane, from 1.
    pub fn lane(&self) -> u32
        ensures { result ≡ self.now.lane }
    {
        self.lane
    }

    /// How many events of the lane have been entered.
    pub fn entered(&self) -> u64
        ensures { result ≡ self.now.numbers.entered }
    {
        self.numbers.entered
    }
}

/// Turns, those of all lanes of a kernel as a rule, that of lane 1 first.
#[derive(Drop)]
pub struct TurnList<K: Name> {
    pub(crate) turns: Vec<Turn<K>>,
}

impl<K: Name> Model for TurnList<K> {
    ghost use Rattle.std.specs.Prelude.{List};
    ghost use Rattle.cred_kernel.specs.Turns.{SeenTurn};

    ghost Value = { List SeenTurn };

    ghost view = { λ t. t.turns.items };
}

impl<K: Name> TurnList<K> {
    /// These turns.
    pub fn of(turns: Vec<Turn<K>>) -> TurnList<K>
        ensures { result ≡ turns.items }
    {
        TurnList { turns }
    }

    /// Its turns.
    pub fn into_turns(self) -> Vec<Turn<K>>
        ensures { result.items ≡ self }
    {
        let TurnList { turns } = self;
        turns
    }
}
