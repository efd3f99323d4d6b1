//! What a refused call answers.
ghost use Rattle.std.specs.Prelude.{◌≡◌, IfOk, OnErr};
ghost use Rattle.cred_record.specs.declared.refusal.Refusal.TheVariants.{Memory};
ghost use Rattle.cred_decide.specs.Refusals.{IsDenied};

use cred_event::Answer;
use cred_ids::NoMemory;
use cred_record::Refusal;

/// What a call answers that is refused: `Eperm` or `Einval`, as its rule denies it.
///
/// # Errors
///
/// `NoMemory` where memory ran out, which no rule decides.
#[inline(always)]
pub fn refusal_answer(refusal: Refusal) -> Result<Answer, NoMemory>
    ensures answer { IfOk result (λ answer. IsDenied refusal answer) }
    ensures memory { OnErr result (refusal ≡ Memory) }
{
    match refusal {
        Refusal::Perm => Ok(Answer::Eperm),
        Refusal::Invalid => Ok(Answer::Einval),
        Refusal::Memory => Err(NoMemory),
    }
}
