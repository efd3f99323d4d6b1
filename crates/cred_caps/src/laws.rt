//! That the numbers which contracts see as sets of capabilities are sets, and those which they see
//! as securebits are flags. There is nothing to run.
ghost use Rattle.cred_caps.specs.Flags.{AreFlags};
ghost use Rattle.cred_caps.specs.Sets.{AreSets};

/// A set of capabilities is its members, and `union`, `meet`, `less`, `with`, `without` and
/// `within` do to them what their names say.
#[tactic(auto, using(crate::proofs::SetLaws::are_sets))]
pub fn are_sets()
    ensures { AreSets }
{}

/// The securebits with a flag set or unset have that flag so, and every other flag and every lock
/// as before.
#[tactic(auto, using(crate::proofs::FlagLaws::are_flags))]
pub fn are_flags()
    ensures { AreFlags }
{}
