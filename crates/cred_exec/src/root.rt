//! The rule for root (capabilities(7), "Capabilities and execution of programs by root").
ghost use Rattle.std.specs.Prelude.{◌≡◌};
ghost use Rattle.cred_rules.specs.Exec.{honors_file, is_by_root, sets_taken};

use crate::ids::user_after;
use crate::sets::{FileSets, sets_of};
use cred_caps::{CapSet, Flag};
use cred_filecap::FileCaps;
use cred_record::{Cred, FileInfo};

/// Whether the file's own sets are honored although its program will act as root: it has an
/// attribute, and the real user id is not root.
fn honors_file(cred: &Cred, file: &FileInfo, caps: &Option<FileCaps>) -> bool
    ensures { result ≡ honors_file cred.now file.now caps.now }
{
    caps.is_some() && !cred.is_root(cred.uid.real) && cred.is_root(user_after(cred, file))
}

/// Whether the rule applies.
pub fn is_by_root(cred: &Cred, file: &FileInfo, caps: &Option<FileCaps>) -> bool
    ensures { result ≡ is_by_root cred.now file.now caps.now }
{
    !cred.bits.flag(Flag::NoRoot)
        && (cred.is_root(cred.uid.real) || cred.is_root(user_after(cred, file)))
        && !honors_file(cred, file, caps)
}

/// The file's sets as execve takes them: full where the rule applies.
pub fn sets_taken(cred: &Cred, file: &FileInfo, caps: &Option<FileCaps>) -> FileSets
    ensures { result ≡ sets_taken cred.now file.now caps.now }
{
    let sets = sets_of(caps);
    if !is_by_root(cred, file, caps) {
        return sets;
    }
    FileSets {
        perm: CapSet::full(),
        inh: CapSet::full(),
        effective: sets.effective || cred.is_root(user_after(cred, file)),
    }
}
