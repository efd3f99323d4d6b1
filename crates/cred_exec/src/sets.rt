//! The capability sets of a file.
ghost use Rattle.std.specs.Prelude.{◌≡◌};
ghost use Rattle.cred_rules.specs.Exec.{sets_of, given_by, gives_all};

use cred_caps::CapSet;
use cred_filecap::FileCaps;
use cred_record::Cred;
use std::marker::Model;

/// The permitted and the inheritable set of a file, and its effective flag. Contracts see the
/// record `FileSets` of `specs/Exec.antt` in `cred_rules`, with the same fields.
#[derive(Clone, Copy, PartialEq, Eq, Debug)]
pub struct FileSets {
    /// What becomes permitted, within the bounding set.
    pub perm: CapSet,
    /// What of the task's inheritable set becomes permitted.
    pub inh: CapSet,
    /// Whether what becomes permitted becomes effective too.
    pub effective: bool,
}

impl Model for FileSets {
    ghost use Rattle.cred_rules.specs.Exec.{FileSets};

    ghost Value = { FileSets };

    ghost view = { λ s. record { perm = s.perm; inh = s.inh; effective = s.effective } };

    ghost inverse = { λ s. record { perm = s.perm; inh = s.inh; effective = s.effective } };
}

/// The sets that the attribute has. Without one they are empty, and the flag is unset.
pub fn sets_of(caps: &Option<FileCaps>) -> FileSets
    ensures { result ≡ sets_of caps.now }
{
    match *caps {
        Some(caps) => FileSets {
            perm: caps.perm,
            inh: caps.inh,
            effective: caps.effective,
        },
        None => FileSets {
            perm: CapSet::empty(),
            inh: CapSet::empty(),
            effective: false,
        },
    }
}

/// What a file with these sets makes permitted.
pub fn given_by(cred: &Cred, sets: FileSets) -> CapSet
    ensures { result ≡ given_by cred.now sets }
{
    let inherited = cred.inh.meet(&sets.inh);
    inherited.union(&sets.perm.meet(&cred.bound))
}

/// Whether a file with the effective flag gives all of its permitted set, by its own sets
/// (capabilities(7), "Safety checking for capability-dumb binaries").
pub fn gives_all(cred: &Cred, caps: &Option<FileCaps>) -> bool
    ensures { result ≡ gives_all cred.now caps.now }
{
    let sets = sets_of(caps);
    let given = given_by(cred, sets);
    !sets.effective || sets.perm.within(&given)
}
