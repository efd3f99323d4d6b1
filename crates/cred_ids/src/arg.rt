//! The argument of a call that sets ids.
ghost use Rattle.std.specs.Prelude.{◌≡◌, ◌≢◌, ◌↔◌};

use crate::id::Id;

/// What a call is to do with one id of the task (setresuid(2)): leave it as it is, which callers
/// write as -1, or set it.
#[derive(Clone, Copy, PartialEq, Eq, Debug)]
pub enum Arg {
    /// The id stays. Some calls refuse this.
    Keep,
    /// The id is to become this one.
    Set(Id),
}

impl Arg {
    /// The argument that a 32-bit word stands for: `Keep` for 4294967295, which is -1 as a word,
    /// and `Set` for each other number.
    pub fn of(n: u32) -> Arg
        ensures keep { (result ≡ Arg.Keep) ↔ (n ≡ Id.NONE) }
        ensures set { n ≢ Id.NONE → result ≡ Arg.Set n }
    {
        match Id::new(n) {
            None => Arg::Keep,
            Some(id) => Arg::Set(id),
        }
    }
}
