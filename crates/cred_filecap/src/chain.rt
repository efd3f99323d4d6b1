//! Whether an attribute counts.
ghost use Rattle.std.specs.Prelude.{◌≡◌};
ghost use Rattle.cred_rules.specs.Attribute.{counts};

use crate::caps::FileCaps;
use crate::version::VERSION_3;
use cred_ids::Id;

/// Whether an attribute counts for a task (capabilities(7), "Namespaced file capabilities"): one of
/// version 1 or 2 always, and one of version 3 exactly where its root id is in `chain`, the root
/// ids of the task's user namespace and of that namespace's ancestors. An attribute that does not
/// count is as none.
pub fn counts(caps: &FileCaps, chain: &[Id]) -> bool
    ensures { result ≡ counts caps.now chain.now }
{
    let root = caps.root;
    caps.version != VERSION_3 || chain.iter().any(|id| id.number() == root)
}
