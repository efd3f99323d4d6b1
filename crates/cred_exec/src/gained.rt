//! What the permitted set gains.
ghost use Rattle.std.specs.Prelude.{◌≡◌};
ghost use Rattle.cred_rules.specs.Exec.{gained, gained_by_file, gains_of};

use crate::after::permitted_after;
use crate::root::is_by_root;
use crate::sets::sets_of;
use cred_caps::CapSet;
use cred_filecap::FileCaps;
use cred_record::{Cred, FileInfo, Gains};

/// What is permitted that was not.
fn gained(cred: &Cred, file: &FileInfo, caps: &Option<FileCaps>) -> CapSet
    ensures { result ≡ gained cred.now file.now caps.now }
{
    permitted_after(cred, file, caps).less(&cred.perm)
}

/// What of it the file's own permitted set gave.
fn gained_by_file(cred: &Cred, file: &FileInfo, caps: &Option<FileCaps>) -> CapSet
    ensures { result ≡ gained_by_file cred.now file.now caps.now }
{
    let given = sets_of(caps).perm.meet(&cred.bound);
    gained(cred, file, caps).meet(&given)
}

/// What is gained, by where it comes from.
#[tactic(auto, unfolding(cred_rules::specs::Exec::gains_of))]
pub fn gains_of(cred: &Cred, file: &FileInfo, caps: &Option<FileCaps>) -> Gains
    ensures { result ≡ gains_of cred.now file.now caps.now }
{
    let gained = gained(cred, file, caps);
    if is_by_root(cred, file, caps) {
        return Gains {
            file: CapSet::empty(),
            inherit: CapSet::empty(),
            root: gained,
        };
    }
    let by_file = gained_by_file(cred, file, caps);
    Gains {
        file: by_file,
        inherit: gained.less(&by_file),
        root: CapSet::empty(),
    }
}
