//! The calls that set the filesystem ids.
ghost use Rattle.std.specs.Prelude.{◌≡◌, IfOk};
ghost use Rattle.cred_caps.specs.Caps.{IsWithin};
ghost use Rattle.cred_rules.specs.SetFs.{fs_after, fs_effective, set_fs, old_fs, FILE_CAPS};

use cred_caps::{Cap, CapSet, Flag};
use cred_ids::{Arg, Id, Ids4, Kind, NoMemory};
use cred_record::{Cred, copy};

/// The filesystem id after the call. `able` says whether the caller has the capability of the kind.
fn fs_after(able: bool, ids: Ids4, a: Arg) -> Id
    ensures { result ≡ fs_after able ids a }
{
    match a {
        Arg::Keep => ids.fs,
        Arg::Set(id) => {
            if able || [ids.real, ids.effective, ids.saved, ids.fs].contains(&id) {
                id
            } else {
                ids.fs
            }
        }
    }
}

/// The eight capabilities that act on files, as linux/capability.h masks them.
fn file_caps() -> CapSet
    ensures { result ≡ FILE_CAPS }
{
    CapSet::cut(0x1_0800_021f)
}

/// The effective set after the filesystem user id became this one.
#[tactic(auto, using(cred_caps::proofs::SetLaws::within))]
fn fs_effective(cred: &Cred, new: Id) -> CapSet
    ensures value { result ≡ fs_effective cred.now cred.now.uid.fs new }
    ensures permitted { IsWithin result cred.now.perm }
{
    let was_root = cred.is_root(cred.uid.fs);
    let is_root = cred.is_root(new);
    if was_root && !is_root {
        cred.eff.less(&file_caps())
    } else if !was_root && is_root {
        cred.eff.union(&file_caps().meet(&cred.perm))
    } else {
        cred.eff
    }
}

/// The credential after setfsuid(2) or setfsgid(2), by the kind, and the filesystem id before. The
/// id that is given becomes the filesystem id if the caller has CAP_SETUID (CAP_SETGID for groups),
/// or if it is the real, effective, saved or filesystem id already; else nothing changes, and as on
/// Linux nothing reports it. A filesystem user id that leaves or becomes root takes the
/// capabilities on files out of the effective set or, where they are permitted, into it, unless
/// NO_SETUID_FIXUP is set, which leaves the effective set alone (capabilities(7)). All else is as
/// in `cred`, which stays as it is.
///
/// # Errors
///
/// `NoMemory` if the groups could not be copied.
#[tactic(auto, using(cred_caps::proofs::SetLaws::within))]
pub fn setfs(cred: &Cred, kind: Kind, arg: Arg) -> Result<(Cred, Id), NoMemory>
    ensures new { IfOk result (λ r. r.0 ≡ set_fs cred.now kind arg) }
    ensures old { IfOk result (λ r. r.1 ≡ old_fs cred.now kind) }
{
    let mut new = copy(cred)?;
    match kind {
        Kind::User => {
            let fs = fs_after(cred.eff.has(Cap::SETUID), cred.uid, arg);
            if !cred.bits.flag(Flag::NoSetuidFixup) {
                new.eff = fs_effective(cred, fs);
            }
            new.uid.fs = fs;
            Ok((new, cred.uid.fs))
        }
        Kind::Group => {
            new.gid.fs = fs_after(cred.eff.has(Cap::SETGID), cred.gid, arg);
            Ok((new, cred.gid.fs))
        }
    }
}
