//! The supplementary groups of a task.
ghost use Rattle.std.specs.Prelude.{◌≡◌, ◌<◌, ◌≤◌, ◌↔◌, ◌⊎◌, length, IsTrue, IfOk, IfErr, IsErrOf};
ghost use Rattle.std.specs.Prelude.{Contains, slice_get, []};
ghost use Rattle.cred_ids.specs.Groups.{IsGroupList};
ghost use Rattle.cred_ids.specs.Ordered.{in_order};

use crate::id::Id;
use crate::limits::GROUP_LIMIT;
use crate::memory::NoMemory;
use std::alloc::{AllocError, Global};
use std::marker::Model;

/// The supplementary groups of a task (setgroups(2)): at most 1,024 ids, sorted, a repeated one as
/// often as it was given. Contracts see the list of their numbers.
#[derive(Drop, Debug)]
pub struct Groups {
    ids: Vec<Id>,
}

impl Model for Groups {
    ghost use Rattle.std.specs.Prelude.{ℕ, List};
    ghost use Rattle.cred_ids.specs.Groups.{IsGroupList};

    ghost Value = { List ℕ };

    ghost view = { λ g. g.ids.items };

    ghost invariant = { λ g. IsGroupList g.ids.items };
}

/// Why `Groups::from_list` makes no groups.
#[derive(Clone, Copy, PartialEq, Eq, Debug)]
pub enum GroupsRefusal {
    /// The list has this many ids, which is more than 1,024.
    TooMany(usize),
    /// Memory ran out.
    Memory,
}

impl From<AllocError> for GroupsRefusal {
    ghost use Rattle.cred_ids.specs.declared.groups.GroupsRefusal.TheVariants.{Memory};

    ghost from_gives = { λ _ r. r ≡ Memory };

    fn from(_e: AllocError) -> GroupsRefusal {
        GroupsRefusal::Memory
    }
}

impl Groups {
    /// No groups. It takes no memory.
    pub fn none(alloc: Global) -> Groups
        ensures { result ≡ [] }
    {
        Groups {
            ids: Vec::new(alloc),
        }
    }

    /// The ids of a list, sorted, with its repeats.
    ///
    /// # Errors
    ///
    /// `TooMany` with the length of the list where it has more than 1,024 ids, and for no other
    /// list; then `Memory` if an allocation of the groups fails.
    pub fn from_list(alloc: Global, list: &[Id]) -> Result<Groups, GroupsRefusal>
        ensures sorted { IfOk result (λ g. g ≡ in_order list.now) }
        ensures too_many { IsErrOf result (GroupsRefusal.TooMany (length list.now))
            ↔ (GROUP_LIMIT < length list.now) }

        // `TooMany` has no other number.
        ensures refusal { IfErr result
            (λ e. (e ≡ GroupsRefusal.TooMany (length list.now)) ⊎ (e ≡ GroupsRefusal.Memory)) }
    {
        if list.len() > GROUP_LIMIT {
            return Err(GroupsRefusal::TooMany(list.len()));
        }
        let mut ids = Vec::with_capacity(alloc, list.len())?;
        // Copied one by one, since `number` shows the proof that each is an id.
        for id in list {
            let _number = id.number();
            ids.push(*id).map_err(AllocError::from)?;
        }
        ids.sort()?;
        Ok(Groups { ids })
    }

    /// The groups of a list that is known to be sorted and to have at most 1,024 ids. It takes no
    /// memory.
    pub fn from_sorted(ids: Vec<Id>) -> Groups
        requires { IsGroupList ids.items }
        ensures { result ≡ ids.items }
    {
        Groups { ids }
    }

    /// Whether the group is one of these.
    pub fn has(&self, group: Id) -> bool
        ensures { IsTrue result ↔ Contains self.now group }
    {
        self.ids.contains(&group)
    }

    /// The number of groups, each repeat counted: 0 to 1,024.
    pub fn len(&self) -> usize
        ensures value { result ≡ length self.now }
        ensures limit { result ≤ GROUP_LIMIT }
    {
        self.ids.len()
    }

    /// Whether there is no group.
    pub fn is_empty(&self) -> bool
        ensures { IsTrue result ↔ (self.now ≡ []) }
    {
        self.ids.is_empty()
    }

    /// The group at a place, from 0, in rising order. `None` from place `len` on.
    pub fn at(&self, place: usize) -> Option<Id>
        ensures { result ≡ slice_get self.now place }
    {
        self.ids.get(place).copied()
    }

    /// The groups as a slice, in rising order.
    pub fn items(&self) -> &[Id]
        ensures { result.now ≡ self.now }
    {
        self.ids.as_slice()
    }

    /// That these are groups: sorted, each an id, and at most 1,024. There is nothing to run.
    pub fn are_groups(&self)
        ensures { IsGroupList self.now }
    {
        let _ = &self.ids;
    }

    /// Equal groups in memory of their own.
    ///
    /// # Errors
    ///
    /// `NoMemory` if the allocation of the copy fails.
    pub fn copy(&self) -> Result<Groups, NoMemory>
        ensures { IfOk result (λ g. g ≡ self.now) }
    {
        Ok(Groups {
            ids: self.ids.clone()?,
        })
    }
}
