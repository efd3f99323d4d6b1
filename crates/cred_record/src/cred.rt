//! A task's credential.
ghost use Rattle.std.specs.Prelude.{◌≡◌, IfOk};
ghost use Rattle.cred_record.specs.Credential.{first_credential, is_root};

use cred_caps::{CapSet, SecureBits};
use cred_ids::{Groups, Id, Ids4, NoMemory};
use std::alloc::Global;
use std::marker::Model;

/// What a task may do (credentials(7), capabilities(7)). The effective set is within the permitted
/// set, and the ambient set is within the permitted and within the inheritable set. Contracts see
/// the record `Credential` of `specs/Credential.antt`, with the same fields.
#[derive(Drop, Debug)]
pub struct Cred {
    /// The user ids.
    pub uid: Ids4,
    /// The group ids.
    pub gid: Ids4,
    /// The supplementary groups.
    pub groups: Groups,
    /// The permitted set: what the task may make effective.
    pub perm: CapSet,
    /// The inheritable set: what a file's inheritable set may grant at execve.
    pub inh: CapSet,
    /// The effective set: what checks of the task's rights look at.
    pub eff: CapSet,
    /// The bounding set: the most that a file's permitted set may grant at execve.
    pub bound: CapSet,
    /// The ambient set: what stays at the execve of a file without privileges.
    pub amb: CapSet,
    /// The securebits.
    pub bits: SecureBits,
    /// no_new_privs (prctl(2)): execve grants nothing that the task could not do before.
    pub nnp: bool,
    /// The number of the task's user namespace.
    pub ns: u32,
    /// The user id of root in that namespace (user_namespaces(7)). No call changes it.
    pub root: Id,
}

impl Model for Cred {
    ghost use Rattle.cred_record.specs.Credential.{Credential, AreValidSets};

    ghost Value = { Credential };

    ghost view = { λ c. record {
      uid = c.uid;
      gid = c.gid;
      groups = c.groups;
      perm = c.perm;
      inh = c.inh;
      eff = c.eff;
      bound = c.bound;
      amb = c.amb;
      bits = c.bits;
      nnp = c.nnp;
      ns = c.ns;
      root = c.root;
    } };

    ghost invariant = { λ c. AreValidSets c.perm c.inh c.eff c.amb };
}

impl Cred {
    /// Whether the user is root, as far as the task's capabilities go: root of the task's own user
    /// namespace (user_namespaces(7), "Capabilities"). User 0 is so where the namespace's root is
    /// user 0, as in the initial one.
    pub fn is_root(&self, user: Id) -> bool
        ensures { result ≡ is_root self.now user }
    {
        user == self.root
    }
}

/// The credential of a first task in a user namespace where root has the user id `root`: all ids as
/// given, no groups, the bounding set full, the permitted and the effective set full for root and
/// empty for each other user, and all else empty, unset and false.
///
/// # Errors
///
/// `NoMemory` if an allocation of the credential fails.
pub fn first(alloc: Global, user: Id, group: Id, ns: u32, root: Id) -> Result<Cred, NoMemory>
    ensures { IfOk result (λ c. c ≡ first_credential user group ns root) }
{
    let own = if user == root {
        CapSet::full()
    } else {
        CapSet::empty()
    };
    Ok(Cred {
        uid: Ids4::all(user),
        gid: Ids4::all(group),
        groups: Groups::none(alloc),
        perm: own,
        inh: CapSet::empty(),
        eff: own,
        bound: CapSet::full(),
        amb: CapSet::empty(),
        bits: SecureBits::none(),
        nnp: false,
        ns,
        root,
    })
}

/// An equal credential in memory of its own.
///
/// # Errors
///
/// `NoMemory` if the allocation of the groups fails.
#[inline(always)]
pub fn copy(cred: &Cred) -> Result<Cred, NoMemory>
    ensures { IfOk result (λ c. c ≡ cred.now) }
{
    Ok(Cred {
        uid: cred.uid,
        gid: cred.gid,
        groups: cred.groups.copy()?,
        perm: cred.perm,
        inh: cred.inh,
        eff: cred.eff,
        bound: cred.bound,
        amb: cred.amb,
        bits: cred.bits,
        nnp: cred.nnp,
        ns: cred.ns,
        root: cred.root,
    })
}
