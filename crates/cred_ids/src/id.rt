//! One id, and the four ids of a kind that a task has.
ghost use Rattle.std.specs.Prelude.{◌≡◌, ◌<◌, ◌↔◌, IsNone, IfSome};

use std::marker::Model;

/// A user's or a group's id, from 0 to 4294967294. Contracts see it as its number.
#[derive(Clone, Copy, PartialEq, Eq, PartialOrd, Ord, Debug)]
pub struct Id(u32);

impl Model for Id {
    ghost use Rattle.std.specs.Prelude.{ℕ};
    ghost use Rattle.cred_ids.specs.Id.{IsId};

    ghost Value = { ℕ };

    ghost view = { λ i. i.0 };

    ghost invariant = { λ i. IsId i.0 };

    ghost inverse = { λ n. record { 0 = n } };
}

impl Id {
    /// The number that is no id: calls read it as -1, 'keep the id'.
    pub const NONE: u32 = 4294967295;

    /// The id of a number. `None` for `NONE` alone.
    pub fn new(n: u32) -> Option<Id>
        ensures none { IsNone result ↔ (n ≡ Self.NONE) }
        ensures id { IfSome result (λ i. i ≡ n) }
    {
        if n == Self::NONE {
            return None;
        }
        Some(Id(n))
    }

    /// The id of a number that is known to be one, which isn't tested.
    #[inline(always)]
    pub fn from_valid(n: u32) -> Id
        requires { n < Self.NONE }
        ensures { result ≡ n }
    {
        Id(n)
    }

    /// The id's number, which is below `NONE`.
    pub fn number(&self) -> u32
        ensures value { result ≡ self.now }
        ensures id { result < Self.NONE }
    {
        self.0
    }
}

/// The two kinds of ids. Each rule on ids is the same for both.
#[derive(Clone, Copy, PartialEq, Eq, Debug)]
pub enum Kind {
    /// User ids. CAP_SETUID sets them at will.
    User,
    /// Group ids. CAP_SETGID sets them at will.
    Group,
}

/// The ids of one kind that a task has (credentials(7)).
#[derive(Clone, Copy, PartialEq, Eq, Debug)]
pub struct Ids4 {
    /// Who owns the task.
    pub real: Id,
    /// Who the task acts as.
    pub effective: Id,
    /// Who the task may go back to acting as: the saved set-user-ID or set-group-ID.
    pub saved: Id,
    /// Who the task reaches files as (setfsuid(2)): the effective id, until it is set apart from
    /// it.
    pub fs: Id,
}

impl Ids4 {
    ghost use Rattle.std.specs.Prelude.{◌≡◌};
    ghost use Rattle.cred_ids.specs.Ids4.{all_four};

    /// One id in all four places.
    pub fn all(id: Id) -> Ids4
        ensures { result ≡ all_four id }
    {
        Ids4 {
            real: id,
            effective: id,
            saved: id,
            fs: id,
        }
    }
}
