//! The calls that set ids.
ghost use Rattle.std.specs.Prelude.{◌≡◌, IfOk, OnErr};

use cred_ids::{Arg, Id, Items, NoMemory};

/// A list of ids, in the order in which they were given, as setgroups(2) is handed one. Contracts
/// see the list of their numbers.
pub type IdList = Items<Id>;

/// A call that sets the real, effective or saved ids of a task, or its supplementary groups.
#[derive(Clone, Drop, Debug)]
pub enum IdCall {
    /// setuid(2).
    SetUid(Arg),
    /// seteuid(2).
    SetEuid(Arg),
    /// setreuid(2): the real id, the effective id.
    SetReuid(Arg, Arg),
    /// setresuid(2): the real id, the effective id, the saved id.
    SetResuid(Arg, Arg, Arg),
    /// setgid(2).
    SetGid(Arg),
    /// setegid(2).
    SetEgid(Arg),
    /// setregid(2): the real id, the effective id.
    SetRegid(Arg, Arg),
    /// setresgid(2): the real id, the effective id, the saved id.
    SetResgid(Arg, Arg, Arg),
    /// setgroups(2).
    SetGroups(IdList),
}

impl IdCall {
    ghost use Rattle.cred_record.specs.Calls.{IsSetGroups};

    /// An equal call.
    ///
    /// # Errors
    ///
    /// `NoMemory` where the list of a `setgroups` could not be copied; no other call takes memory.
    pub fn copy(&self) -> Result<IdCall, NoMemory>
        ensures equal { IfOk result (λ c. c ≡ self.now) }
        ensures refusal { OnErr result (IsSetGroups self.now) }
    {
        Ok(self.clone()?)
    }
}
