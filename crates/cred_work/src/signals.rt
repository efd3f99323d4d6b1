//! Signals between tasks whose credentials are held.
ghost use Rattle.std.specs.Prelude.{◌≡◌, false};
ghost use Rattle.cred_rules.specs.Access.{may_signal};

use crate::pause::Pause;
use cred_access::may_signal_by;
use cred_hold::{Cells, HoldToken, read_caps, read_ids};

/// Whether a task with the credential that `from` holds may send a signal to one of another process
/// with the credential that `to` holds (kill(2)). Within one process it always may. The holds stay
/// as they were. It takes no memory and waits for nobody but `pause`, which it calls once the words
/// have been read, before anything is decided by them.
pub fn decide_signal<P: Pause>(
    cells: &Cells,
    pause: &P,
    from: &mut HoldToken,
    to: &mut HoldToken,
) -> bool
    requires own { (from.old.id ≡ cells.now) × (to.old.id ≡ cells.now) }
    ensures value { result ≡ may_signal from.old.cred to.old.cred false }
    ensures same { (from.new ≡ from.old) × (to.new ≡ to.old) }
{
    let (sender, _) = read_ids(cells, from);
    let [_, _, effective, _, _] = read_caps(cells, from);
    let (target, _) = read_ids(cells, to);
    pause.pause();
    may_signal_by(&sender, effective, &target, false)
}
