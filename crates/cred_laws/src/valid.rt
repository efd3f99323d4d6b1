//! The sets of each sealed credential are those of a credential.
ghost use Rattle.cred_laws.specs.Valid.{SealedAreValid};

/// In the state after any journal, of each credential that was ever sealed nothing is effective
/// that isn't permitted, and nothing ambient that isn't permitted and inheritable (capabilities(7),
/// "Thread capability sets").
///
/// It assumes nothing of the journal's answers.
pub fn sealed_are_valid()
    ensures { SealedAreValid }
{}
