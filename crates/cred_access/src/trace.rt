//! The check of one task's access to another.
ghost use Rattle.std.specs.Prelude.{◌≡◌};
ghost use Rattle.cred_record.specs.Credential.{Credential, capable};
ghost use Rattle.cred_rules.specs.Ptrace.{asking_user, asking_group, asking_caps, are_all};
ghost use Rattle.cred_rules.specs.Ptrace.{has_asking_ids, has_sys_ptrace, is_no_stronger};
ghost use Rattle.cred_caps.specs.Numbers.{SYS_PTRACE};
ghost use Rattle.cred_rules.specs.Ptrace.{may_trace};
ghost use Rattle.cred_access.specs.Seen.{IsSeen, seen_of};

use cred_caps::{Cap, CapSet};
use cred_ids::{Id, Ids4};
use cred_record::{Cred, PtraceMode};

/// What the check looks at of a credential.
#[derive(Clone, Copy)]
pub struct Seen {
    pub uid: Ids4,
    pub gid: Ids4,
    pub perm: CapSet,
    pub eff: CapSet,
    pub ns: u32,
}

impl Seen {
    /// What it looks at of this one.
    fn of(cred: &Cred) -> Seen
        ensures { result ≡ seen_of cred.now }
    {
        Seen {
            uid: cred.uid,
            gid: cred.gid,
            perm: cred.perm,
            eff: cred.eff,
            ns: cred.ns,
        }
    }

    /// The user id that a task asks by.
    fn user(&self, mode: PtraceMode) -> Id
        ensures { (c : Credential) → IsSeen self.now c → result ≡ asking_user mode c }
    {
        match mode {
            PtraceMode::Fs => self.uid.fs,
            PtraceMode::Real => self.uid.real,
        }
    }

    /// The group id that it asks by.
    fn group(&self, mode: PtraceMode) -> Id
        ensures { (c : Credential) → IsSeen self.now c → result ≡ asking_group mode c }
    {
        match mode {
            PtraceMode::Fs => self.gid.fs,
            PtraceMode::Real => self.gid.real,
        }
    }

    /// The capabilities that it asks by.
    fn caps(&self, mode: PtraceMode) -> CapSet
        ensures { (c : Credential) → IsSeen self.now c → result ≡ asking_caps mode c }
    {
        match mode {
            PtraceMode::Fs => self.eff,
            PtraceMode::Real => self.perm,
        }
    }

    /// Whether CAP_SYS_PTRACE is in the effective set.
    fn has_sys_ptrace(&self) -> bool
        ensures { (c : Credential) → IsSeen self.now c → result ≡ capable c SYS_PTRACE }
    {
        let sys_ptrace = Cap::SYS_PTRACE;
        self.eff.has(sys_ptrace)
    }
}

/// Whether the real, the effective and the saved id are this one.
fn are_all(id: Id, ids: &Ids4) -> bool
    ensures { result ≡ are_all id ids.now }
{
    ids.real == id && ids.effective == id && ids.saved == id
}

/// Whether a task with the credential `from` may look into one with the credential `to` (ptrace(2),
/// "Ptrace access mode checking").
///
/// `same` says that both are of one process, where it always may. `reach` says that the user
/// namespace of `from` is that of `to` or an ancestor of it, and `dumpable` that the target's
/// process is. Three tests come then, and CAP_SYS_PTRACE in the effective set of `from` passes each
/// where `reach` holds:
///
/// - The real, effective and saved user ids of `to` are all the user id that is asked by, and its
///   group ids likewise. With `PtraceMode::Fs` `from` asks by its filesystem ids, with
///   `PtraceMode::Real` by its real ones.
/// - The target's process is dumpable.
/// - Both are in one user namespace, and what is permitted to `to` is in the capabilities that are
///   asked by: the effective set of `from` with `PtraceMode::Fs`, its permitted set with
///   `PtraceMode::Real`.
///
/// The tests that other security modules than the commoncap one make are not made.
pub fn may_trace(
    from: &Cred,
    to: &Cred,
    same: bool,
    reach: bool,
    dumpable: bool,
    mode: PtraceMode,
) -> bool
    ensures { result ≡ may_trace from.now to.now same reach dumpable mode }
{
    may_trace_by(&Seen::of(from), &Seen::of(to), same, reach, dumpable, mode)
}

/// The same, by what the check looks at of the two credentials.
pub fn may_trace_by(
    from: &Seen,
    to: &Seen,
    same: bool,
    reach: bool,
    dumpable: bool,
    mode: PtraceMode,
) -> bool
    ensures { (asker target : Credential) → IsSeen from.now asker → IsSeen to.now target
        → result ≡ may_trace asker target same reach dumpable mode }
{
    let capable = from.has_sys_ptrace() && reach;
    same || (capable || has_asking_ids(from, to, mode))
        && (capable || dumpable)
        && (capable || is_no_stronger(from, to, mode))
}

/// Whether all ids of the target are those that are asked by.
fn has_asking_ids(from: &Seen, to: &Seen, mode: PtraceMode) -> bool
    ensures { (asker target : Credential) → IsSeen from.now asker → IsSeen to.now target
        → result ≡ has_asking_ids asker target mode }
{
    are_all(from.user(mode), &to.uid) && are_all(from.group(mode), &to.gid)
}

/// Whether the target, in the same user namespace, is permitted no more than is asked by.
fn is_no_stronger(from: &Seen, to: &Seen, mode: PtraceMode) -> bool
    ensures { (asker target : Credential) → IsSeen from.now asker → IsSeen to.now target
        → result ≡ is_no_stronger asker target mode }
{
    from.ns == to.ns && to.perm.within(&from.caps(mode))
}
