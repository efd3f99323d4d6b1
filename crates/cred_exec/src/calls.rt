//! execve(2).
ghost use Rattle.std.specs.Prelude.{◌≡◌};
ghost use Rattle.cred_exec.specs.Answers.{AnswersExec};
ghost use Rattle.cred_rules.specs.Exec.{may_execute, exec};

use crate::after::after_exec;
use crate::attribute::attribute_for;
use crate::gained::gains_of;
use crate::refusal::ExecRefusal;
use crate::sets::gives_all;
use cred_access::may;
use cred_ids::Id;
use cred_record::{Cred, FileInfo, FileKind, Gains, Want};

/// To execute, and nothing else.
const EXECUTE: Want = Want {
    r: false,
    w: false,
    x: true,
};

/// Whether the file is a regular one, and the task may execute it.
fn may_execute(cred: &Cred, file: &FileInfo) -> bool
    ensures { result ≡ may_execute cred.now file.now }
{
    file.kind == FileKind::Regular && may(cred, file, EXECUTE)
}

/// The credential of a task after the execve of a file, and what its permitted set gained by that
/// (execve(2); capabilities(7), "Transformation of capabilities during execve()"). `cred` stays as
/// it is. `chain` has the root ids of the task's user namespace and of that namespace's ancestors:
/// under them the file's attribute counts or not, and one that does not count is as none.
///
/// - A set-user-ID bit makes the file's owner the effective user, and a set-group-ID bit, where the
///   group may execute the file, its group the effective group. The saved and the filesystem ids
///   become the effective ones. The real ids, the groups and the namespace stay.
/// - The sets follow capabilities(7). The inheritable and the bounding set stay.
/// - Under no_new_privs, and on a nosuid file system, the set-id bits and the attribute are
///   ignored. Under no_new_privs nothing becomes permitted that was not.
/// - KEEP_CAPS is cleared. The other securebits and no_new_privs stay.
///
/// # Errors
///
/// In this order:
///
/// - `Access` for a file that is not regular, or that the task may not execute;
/// - `BadAttribute` where the attribute is not ignored, and its bytes spell nothing;
/// - `Perm` where the attribute counts and has the effective flag, and a capability of its
///   permitted set is neither in the bounding set nor in both inheritable sets, the task's and the
///   file's;
/// - `Memory` if an allocation fails.
#[tactic(auto, unfolding(cred_rules::specs::Exec::exec))]
pub fn exec(cred: &Cred, file: &FileInfo, chain: &[Id]) -> Result<(Cred, Gains), ExecRefusal>
    ensures { AnswersExec result (exec cred.now file.now chain.now) }
{
    if !may_execute(cred, file) {
        return Err(ExecRefusal::Access);
    }
    let caps = attribute_for(cred, file, chain)?;
    if !gives_all(cred, &caps) {
        return Err(ExecRefusal::Perm);
    }
    let gains = gains_of(cred, file, &caps);
    Ok((after_exec(cred, file, &caps)?, gains))
}
