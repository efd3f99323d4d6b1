//! What holds in every state of a run: references and slots in order, names unique, as many tasks
//! as may live.
//!
//! Below the laws and the book, so that both take it from here. The proof goes by parts: what an
//! event may change of the tasks, the broadcasts, the open files, the holds, the prepared labels
//! and the sealed credentials, and the few moves of their use that these come to.
#![tactic(auto)]

ghost use Rattle.cred_sound.specs.TaskCount.{TasksAreFew};
ghost use Rattle.cred_sound.specs.Sound.{StatesAreSound};

/// In the state after any journal each reference is to a sealed credential, each sealed credential
/// stands in one of the slots, and two different credentials that are referred to stand in
/// different slots. The base of a prepared label is referred to as long as the label stands.
///
/// No two tasks have one number, no two open files one descriptor, and no label is that of two
/// holds, of two prepared credentials, or of a hold and a prepared credential. Each prepared label
/// keeps one of the slots, no two of them the same, and nothing that is referred to stands in a
/// slot that is kept.
///
/// A process has one open broadcast at most, and no two broadcasts have one number. In each of them
/// somebody waits: live threads of its process, in rising order. Its caller is a live thread of
/// that process, and doesn't wait (nptl(7)).
///
/// Each process that has threads has one flag that says whether it is dumpable (prctl(2)), and no
/// other process has any.
///
/// It assumes nothing of the journal's answers, and says nothing of them.
pub fn states_are_sound()
    ensures { StatesAreSound }
{}

/// No more than 64 tasks live in the state after any journal.
///
/// It assumes nothing of the journal's answers, and says nothing of them.
pub fn tasks_are_few()
    ensures { TasksAreFew }
{}
