//! A call of one thread that sets ids is every thread's.
ghost use Rattle.cred_laws.specs.Broadcast.{BroadcastsAreFollowed, CallsAreEveryThreads};

/// In each open broadcast the threads of the process that don't wait have, on their current
/// credential, what its call names, and so it stays over each event. A thread that is created
/// meanwhile shares its creator's credential and waits where that one waits; a change that a thread
/// commits for itself sets no real, effective or saved id and no groups, but an execve, which drops
/// the broadcast (nptl(7), execve(2)).
///
/// It asks for a sound state in which each prepared credential is what its change makes of its
/// base, as every journal leads to. It says nothing of the threads that still wait.
#[tactic(auto, using(crate::proofs::BroadcastLaws::broadcasts_are_followed))]
pub fn broadcasts_are_followed()
    ensures { BroadcastsAreFollowed }
{}

/// After an event that completes a call which all threads of a process make, the current credential
/// of each live thread of the process has the ids or the groups that the call names: where the
/// caller is the only thread, after the last step of a thread that waited, and after the end of one
/// (nptl(7), "NPTL and process credential changes").
///
/// setuid(2) and setgid(2) name the effective id alone: with the capability they set the real and
/// the saved id too, and which threads have it may differ. It does not say that a call is ever
/// completed: a thread that can't follow ends the process, and an execve drops the broadcast.
#[tactic(auto, using(crate::proofs::BroadcastLaws::calls_are_every_threads))]
pub fn calls_are_every_threads()
    ensures { CallsAreEveryThreads }
{}
