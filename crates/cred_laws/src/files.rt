//! What a run makes of the files that its script declares.
ghost use Rattle.cred_laws.specs.Files.{FilesAreAsMany, FilesChangeByCalls, ChownStrips};
ghost use Rattle.cred_laws.specs.Files.{StaysStripped};

/// Where an event leaves a file otherwise than it was, it is chown(2), chmod(2), or setxattr(2) or
/// removexattr(2) of its capability attribute, on that file, and isn't refused.
///
/// It does not say that such an event changes the file: a chown may give it the owner that it has.
#[tactic(auto, using(crate::proofs::FileLaws::files_change_by_calls))]
pub fn files_change_by_calls()
    ensures { FilesChangeByCalls }
{}

/// No event adds a file to those of the script, or takes one away.
#[tactic(auto, using(crate::proofs::FileLaws::files_are_as_many))]
pub fn files_are_as_many()
    ensures { FilesAreAsMany }
{}

/// A chown that isn't refused, and gives an owner or a group to an executable regular file, leaves
/// it without a capability attribute and without the set-user-ID bit, whoever calls (chown(2);
/// capabilities(7), "File capabilities").
///
/// It says nothing of the set-group-ID bit, which stays on a file that its group can't execute.
#[tactic(auto, using(crate::proofs::FileLaws::chown_strips))]
pub fn chown_strips()
    ensures { ChownStrips }
{}

/// A file that has no attribute and no set-user-ID bit has neither after each event but a chmod of
/// it and a change of its attribute.
#[tactic(auto, using(crate::proofs::FileLaws::stays_stripped))]
pub fn stays_stripped()
    ensures { StaysStripped }
{}
