//! A list of plain values, as bytes or ids.
ghost use Rattle.std.specs.Prelude.{◌≡◌, IfOk};

use crate::memory::NoMemory;
use std::alloc::Global;
use std::marker::Model;

/// A list of `Copy` values, of any length, in their order. Contracts see the list.
#[derive(Clone, Drop, Debug)]
pub struct Items<T> {
    items: Vec<T>,
}

impl<T> Model for Items<T> {
    ghost use Rattle.std.specs.Prelude.{List};
    ghost use Rattle.std.specs.Coded.{coded_list};

    ghost Value = { List T };

    ghost coded = { coded_list T.code };

    ghost view = { λ l. l.items.items };
}

/// A list of bytes.
pub type Bytes = Items<u8>;

impl<T: Copy> Items<T> {
    /// A list of these values.
    ///
    /// # Errors
    ///
    /// `NoMemory` if the allocation of the list fails.
    pub fn of(alloc: Global, items: &[T]) -> Result<Items<T>, NoMemory>
        ensures { IfOk result (λ l. l ≡ items.now) }
    {
        Ok(Items {
            items: Vec::from_slice(alloc, items)?,
        })
    }

    /// The list of these values, in the memory that they stand in.
    pub fn from_vec(items: Vec<T>) -> Items<T>
        ensures { result ≡ items.items }
    {
        Items { items }
    }

    /// The values as a vector, for which no memory is taken.
    pub fn into_vec(self) -> Vec<T>
        ensures { result.items ≡ self }
    {
        self.items
    }

    /// The values, in order.
    pub fn items(&self) -> &[T]
        ensures { result.now ≡ self.now }
    {
        &self.items
    }

    /// An equal list in memory of its own.
    ///
    /// # Errors
    ///
    /// `NoMemory` if the allocation of the copy fails.
    pub fn copy(&self) -> Result<Items<T>, NoMemory>
        ensures { IfOk result (λ l. l ≡ self.now) }
    {
        Ok(Items {
            items: Vec::from_slice(*self.items.allocator(), &self.items)?,
        })
    }
}
