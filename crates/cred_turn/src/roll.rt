//! The roll and its passes.
ghost use Rattle.std.specs.Prelude.{◌≡◌, false, replicate, IfOk};
ghost use Rattle.cred_turn.specs.Rows.{fresh, home_row, lent_row, HasRow, row_of, with_row};
ghost use Rattle.cred_turn.specs.Seen.{pass};

use crate::numbers::LaneNumbers;
use crate::rule::{LearnsPass, LendsPass, Order, PassRule, ReturnsPass};
use crate::view::TurnView;
use atomic_table::{Seat, Table};
use cred_ids::NoMemory;
use std::alloc::Global;
use std::marker::{Brand, Model};

/// The rows of the lanes, of which there is one roll. At run time it is one word, which is 0: the
/// rows stand in the proofs alone. Contracts see its identity and its rows.
#[derive(Drop)]
pub struct Roll {
    table: Table<(), TurnView, u32, PassRule, Global>,
    seat: Seat<(), TurnView>,
}

impl Model for Roll {
    ghost use Rattle.std.specs.Prelude.{◌≡◌, [], None};
    ghost use Rattle.cred_turn.specs.Seen.{Rolled};

    ghost Value = { Rolled };

    ghost use Rattle.cred_turn.specs.Rule.{rows_of};
    ghost use Rattle.cred_turn.specs.declared.view.TurnView.TheVariants.{Roll as IsRoll};

    ghost view = { λ r. record { id = r.table.shared.table_id; rows = rows_of r.seat.me.0 } };

    ghost invariant = { λ r. (r.seat.table_id ≡ r.table.shared.table_id)
        × (r.table.shared.table_id.words ≡ 1)
        × (r.seat.id ≡ 0)
        × (r.seat.me ≡ (IsRoll (rows_of r.seat.me.0) None, [])) };
}

/// A row that is lent. It has no bytes. Contracts see the identity of its roll, its lane and the
/// numbers with which it was lent.
#[derive(Drop)]
pub struct Pass {
    seat: Seat<(), TurnView>,
}

impl Model for Pass {
    ghost use Rattle.std.specs.Prelude.{◌≡◌, []};
    ghost use Rattle.cred_turn.specs.Seen.{Passed, pass};

    ghost Value = { Passed };

    ghost use Rattle.cred_turn.specs.Rule.{lent_of};
    ghost use Rattle.cred_turn.specs.declared.view.TurnView.TheVariants.{Pass as IsPass};

    ghost view = { λ p. pass p.seat.table_id (lent_of p.seat.me.0).lane
        (lent_of p.seat.me.0).numbers };

    ghost invariant = { λ p. p.seat.me ≡ (IsPass (lent_of p.seat.me.0), []) };
}

impl Roll {
    /// A roll with a row for each of so many lanes, the first of which is lane 1. None is lent.
    ///
    /// # Errors
    ///
    /// `NoMemory` if the allocation of its one word fails.
    pub fn make(alloc: Global, lanes: u32) -> Result<Roll, NoMemory>
        ensures rows { IfOk result (λ r. r.rows ≡ replicate lanes (home_row fresh)) }
    {
        let (table, seat) = Table::of_words(alloc, &[0], &lanes)?;
        Ok(Roll { table, seat })
    }

    /// Lends the lane's row, which gets these numbers. It takes no memory and waits for nobody.
    pub fn lend(&mut self, lane: u32, numbers: LaneNumbers) -> Pass
        requires lane { HasRow self.old.rows lane }
        requires home { (row_of self.old.rows lane).lent ≡ false }
        ensures pass { result ≡ pass self.old.id lane numbers }
        ensures roll { self.new ≡ record {
          id = self.old.id;
          rows = with_row self.old.rows lane (lent_row numbers);
        } }
    {
        self.lend_as::<Brand>(lane, numbers)
    }

    /// The same by an order that has the lane and the numbers.
    fn lend_as<O: Order>(&mut self, lane: u32, numbers: LaneNumbers) -> Pass
        requires order { (lane ≡ O.lane) × (numbers ≡ O.numbers) }
        requires lane { HasRow self.old.rows O.lane }
        requires home { (row_of self.old.rows O.lane).lent ≡ false }
        ensures pass { result ≡ pass self.old.id O.lane O.numbers }
        ensures roll { self.new ≡ record {
          id = self.old.id;
          rows = with_row self.old.rows O.lane (lent_row O.numbers);
        } }
    {
        let _ = (lane, numbers);
        let Roll { table, seat } = self;
        let shared = &table.shared;
        Pass {
            seat: shared.split_seat::<LendsPass<O>>(seat),
        }
    }

    /// Takes a pass of this roll back. Its lane's row was lent and had the pass's numbers; it has
    /// them still and is not lent. It takes no memory and waits for nobody.
    pub fn take(&mut self, pass: Pass)
        requires own { pass.roll ≡ self.old.id }
        ensures lane { HasRow self.old.rows pass.lane }
        ensures was { row_of self.old.rows pass.lane ≡ lent_row pass.numbers }
        ensures roll { self.new ≡ record {
          id = self.old.id;
          rows = with_row self.old.rows pass.lane (home_row pass.numbers);
        } }
    {
        let Pass { seat: back } = pass;
        let Roll { table, seat } = self;
        let shared = &table.shared;
        shared.join_seat::<ReturnsPass>(seat, back);
        shared.load::<LearnsPass>(seat, 0);
    }
}
