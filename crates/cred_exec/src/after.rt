//! The credential of the task after execve.
ghost use Rattle.std.specs.Prelude.{◌≡◌, IfOk};
ghost use Rattle.cred_rules.specs.Exec.{is_privileged, amb_after, limited, perm_after};
ghost use Rattle.cred_rules.specs.Exec.{eff_after, after_exec};

use crate::attribute::{sets_group, sets_user};
use crate::ids::{group_after, ids_after, user_after};
use crate::root::sets_taken;
use crate::sets::given_by;
use cred_caps::{CapSet, Flag};
use cred_filecap::FileCaps;
use cred_ids::NoMemory;
use cred_record::{Cred, FileInfo, copy};

/// Whether the file is privileged: it has an attribute, also one with empty sets, or a set-id bit
/// that is in force.
fn is_privileged(cred: &Cred, file: &FileInfo, caps: &Option<FileCaps>) -> bool
    ensures { result ≡ is_privileged cred.now file.now caps.now }
{
    caps.is_some() || sets_user(cred, file) || sets_group(cred, file)
}

/// The new ambient set: a privileged file empties it.
fn ambient_after(cred: &Cred, file: &FileInfo, caps: &Option<FileCaps>) -> CapSet
    ensures { result ≡ amb_after cred.now file.now caps.now }
{
    if is_privileged(cred, file, caps) {
        CapSet::empty()
    } else {
        cred.amb
    }
}

/// What no_new_privs leaves of a permitted set: what was permitted before.
fn limited(cred: &Cred, set: CapSet) -> CapSet
    ensures { result ≡ limited cred.now set }
{
    if cred.nnp { set.meet(&cred.perm) } else { set }
}

/// The new permitted set.
pub fn permitted_after(cred: &Cred, file: &FileInfo, caps: &Option<FileCaps>) -> CapSet
    ensures { result ≡ perm_after cred.now file.now caps.now }
{
    let given = given_by(cred, sets_taken(cred, file, caps));
    limited(cred, given.union(&ambient_after(cred, file, caps)))
}

/// The new effective set.
fn effective_after(cred: &Cred, file: &FileInfo, caps: &Option<FileCaps>) -> CapSet
    ensures { result ≡ eff_after cred.now file.now caps.now }
{
    if sets_taken(cred, file, caps).effective {
        permitted_after(cred, file, caps)
    } else {
        ambient_after(cred, file, caps)
    }
}

/// The credential after the execve of the file.
///
/// # Errors
///
/// `NoMemory` if the groups could not be copied.
#[tactic(auto, unfolding(cred_rules::specs::Exec::after_exec))]
pub fn after_exec(cred: &Cred, file: &FileInfo, caps: &Option<FileCaps>) -> Result<Cred, NoMemory>
    ensures { IfOk result (λ new. new ≡ after_exec cred.now file.now caps.now) }
{
    let mut new = copy(cred)?;
    new.uid = ids_after(cred.uid, user_after(cred, file));
    new.gid = ids_after(cred.gid, group_after(cred, file));
    new.perm = permitted_after(cred, file, caps);
    new.eff = effective_after(cred, file, caps);
    new.amb = ambient_after(cred, file, caps);
    new.bits = cred.bits.with(Flag::KeepCaps, false);
    Ok(new)
}
