//! The entries of earlier parts of a journal.
ghost use Rattle.std.specs.Prelude.{◌≡◌, ◌++◌, [], IfOk};

use atomic_table::{Play, Seat, Table, TableRule};
use cred_event::Entry;
use cred_ids::NoMemory;
use std::alloc::Global;
use std::collections::LinkedList;
use std::marker::{Brand, Model, PhantomData};

/// A rule that allows everything: nobody else has a seat of the table.
struct AnyEntries;

impl TableRule<(), LinkedList<Entry>, u32> for AnyEntries {
    ghost use Rattle.std.specs.Prelude.{[], ⊤};

    ghost holds = { λ _ s. ⊤ };

    ghost first = { λ _. [] };
}

/// The entries of one part. Each call picks them, since a step sees its view and no argument.
trait Part {
    ghost use Rattle.std.specs.Prelude.{List};
    ghost use Rattle.cred_event.specs.declared.entry.Entry.{Entry};

    ghost entries: { List Entry };
}

impl Part for Brand {
    ghost use Rattle.std.specs.Prelude.{[]};

    ghost entries = { [] };
}

/// Adds a part to those before it.
struct Adds<P>(PhantomData<P>);

impl<P: Part> Play<(), LinkedList<Entry>> for Adds<P> {
    ghost use Rattle.std.specs.Prelude.{◌≡◌, ◌++◌};

    ghost then = { λ _ v _ w. (w.0 ≡ v.0 ++ P.entries) × (w.1 ≡ v.1) };
}

/// The entries of the parts before this one. At run time it is one word, which is 0: the entries
/// stand in the proofs alone. Contracts see them.
#[derive(Drop)]
pub(crate) struct Earlier {
    table: Table<(), LinkedList<Entry>, u32, AnyEntries, Global>,
    seat: Seat<(), LinkedList<Entry>>,
}

impl Model for Earlier {
    ghost use Rattle.std.specs.Prelude.{◌≡◌, List, []};
    ghost use Rattle.cred_event.specs.declared.entry.Entry.{Entry};

    ghost Value = { List Entry };

    ghost view = { λ e. e.seat.me.0 };

    ghost invariant = { λ e. (e.seat.table_id ≡ e.table.shared.table_id)
        × (e.table.shared.table_id.words ≡ 1)
        × (e.seat.me.1 ≡ []) };
}

impl Earlier {
    /// No entries: this is the first part.
    ///
    /// # Errors
    ///
    /// `NoMemory` if the allocation of its one word fails.
    pub(crate) fn none(alloc: Global) -> Result<Earlier, NoMemory>
        ensures { IfOk result (λ none. none ≡ []) }
    {
        let (table, seat) = Table::of_words(alloc, &[0], &0)?;
        Ok(Earlier { table, seat })
    }

    /// Adds the entries of a part. It takes no memory and waits for nobody.
    pub(crate) fn add(&mut self, part: &[Entry])
        ensures { self.new ≡ self.old ++ part.now }
    {
        self.add_as::<Brand>(part);
    }

    /// The same for a part that has these entries.
    fn add_as<P: Part>(&mut self, part: &[Entry])
        requires { part.now ≡ P.entries }
        ensures { self.new ≡ self.old ++ P.entries }
    {
        let _ = part;
        let Earlier { table, seat } = self;
        let shared = &table.shared;
        shared.load::<Adds<P>>(seat, 0);
    }
}
