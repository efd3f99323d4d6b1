//! The cells of a kernel.
ghost use Rattle.std.specs.Prelude.{◌≡◌};

use crate::name::Name;
use cred_hold::Cells;
use std::marker::{Model, PhantomData};

/// The cells of a kernel, which stand beside its lock and are the name's. Nobody reads or writes
/// them but the steps that are made under the lock, and `decide`, which needs the lane's turn.
/// Contracts see their identity.
pub struct KernelCells<K: Name> {
    cells: Cells,
    of: PhantomData<K>,
}

impl<K: Name> Model for KernelCells<K> {
    ghost use Rattle.std.specs.Prelude.{◌≡◌};
    ghost use Rattle.atomic_table.specs.Seated.{TableId};

    ghost Value = { TableId };

    ghost view = { λ c. c.cells };

    ghost invariant = { λ c. c.cells ≡ K.cells };
}

/// Written out, so that it is proved here alone.
impl<K: Name> Drop for KernelCells<K> {
    fn drop(self) {
        let KernelCells { cells, of: _ } = self;
        drop(cells);
    }
}

impl<K: Name> KernelCells<K> {
    /// These cells, under the name.
    pub(crate) fn of(cells: Cells) -> KernelCells<K>
        requires { cells ≡ K.cells }
    {
        KernelCells {
            cells,
            of: PhantomData,
        }
    }

    /// The cells.
    pub(crate) fn shared(&self) -> &Cells
        ensures { result.now ≡ K.cells }
    {
        &self.cells
    }
}
