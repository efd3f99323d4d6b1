//! What a change makes, in memory of its own.
ghost use Rattle.std.specs.Prelude.{◌≡◌, IfOk};

use cred_decide::Made;
use cred_event::Answer;
use cred_ids::NoMemory;
use cred_record::Cred;
use std::alloc::Global;
use std::marker::Model;

/// What a change makes, in memory of its own: it is large, and what is lent is moved often.
/// Contracts see what the change makes.
pub struct BoxedMade {
    made: Box<Made>,
}

impl Model for BoxedMade {
    ghost use Rattle.cred_model.specs.Change as model;

    ghost Value = { model.Made };

    ghost view = { λ b. b.made.value };
}

/// Written out, so that it is proved here alone: with a derived one, each crate above that drops it
/// would prove all parts again.
impl Drop for BoxedMade {
    fn drop(self) {
        let BoxedMade { made } = self;
        drop(made);
    }
}

impl BoxedMade {
    /// Moves it into memory of its own.
    ///
    /// # Errors
    ///
    /// `NoMemory` if the allocation fails.
    pub(crate) fn new(alloc: Global, made: Made) -> Result<BoxedMade, NoMemory>
        ensures { IfOk result (λ boxed. boxed ≡ made) }
    {
        Ok(BoxedMade {
            made: Box::new(alloc, made)?,
        })
    }

    /// The new credential.
    pub(crate) fn cred(&self) -> &Cred
        ensures { result.now ≡ self.now.cred }
    {
        &self.made.cred
    }

    /// What the change makes. Its memory is freed.
    pub fn into_made(self) -> Made
        ensures { result ≡ self }
    {
        let BoxedMade { made } = self;
        Box::into_inner(made)
    }
}

/// What was decided of a change, out of its memory.
pub fn unbox(made: Result<BoxedMade, Answer>) -> Result<Made, Answer>
    ensures { result ≡ made }
{
    match made {
        Ok(made) => Ok(made.into_made()),
        Err(answer) => Err(answer),
    }
}
