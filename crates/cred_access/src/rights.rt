//! What a task may do by its capabilities, and to another task.
ghost use Rattle.std.specs.Prelude.{◌≡◌};
ghost use Rattle.cred_record.specs.Credential.{Credential, capable};
ghost use Rattle.cred_rules.specs.Access.{owns_task, may_signal};

use cred_caps::{Cap, CapSet};
use cred_ids::{Id, Ids4};
use cred_record::Cred;

/// Whether a task with this credential has the capability, as checks of its rights ask: it is in
/// the effective set (capabilities(7)).
pub fn capable(cred: &Cred, c: Cap) -> bool
    ensures { result ≡ capable cred.now c }
{
    cred.eff.has(c)
}

/// Whether the user is the real or the saved user of the target.
fn owns(user: Id, target: &Ids4) -> bool
    ensures { result ≡ owns_task user target.now }
{
    [target.real, target.saved].contains(&user)
}

/// Whether a task with the credential `from` may send a signal to one with the credential `to`
/// (kill(2)). `same` says that both are in one process, where it always may. Else it may with
/// CAP_KILL in its effective set, or where its real or its effective user id is the target's real
/// or saved user id. The target's effective and filesystem user ids do not count, nor do groups and
/// user namespaces. The exception that kill(2) makes for SIGCONT within a session is not made.
pub fn may_signal(from: &Cred, to: &Cred, same: bool) -> bool
    ensures { result ≡ may_signal from.now to.now same }
{
    may_signal_by(&from.uid, from.eff, &to.uid, same)
}

/// Whether a task with these user ids and this effective set may send a signal to one with the user
/// ids `to`: all that `may_signal` asks of the two credentials.
pub fn may_signal_by(from: &Ids4, effective: CapSet, to: &Ids4, same: bool) -> bool
    ensures { (sender target : Credential) → sender.uid ≡ from.now → sender.eff ≡ effective
        → target.uid ≡ to.now → result ≡ may_signal sender target same }
{
    same || effective.has(Cap::KILL) || owns(from.real, to) || owns(from.effective, to)
}
