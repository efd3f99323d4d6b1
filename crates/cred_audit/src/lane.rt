//! The lane of an entry, by the number with which its text begins.
ghost use Rattle.std.specs.Prelude.{◌≡◌, ◌≤◌, ◌++◌, ◌∷◌, ℕ, List, Some, decimal, length};
ghost use Rattle.cred_ids.specs.Limits.{LINE_LIMIT};
ghost use Rattle.cred_audit.specs.Next.{IsLaneAt};

use cred_script::Script;
use cred_spelling::{LineNumber, Spelling};

/// The lane of the line with whose number the bytes begin.
pub(crate) fn lane_at(script: &Script, bytes: &[u8]) -> Option<u32>
    requires { length script.now.lines ≤ LINE_LIMIT }
    ensures { IsLaneAt script.now bytes.now result }
{
    let number = number_at(bytes)?;
    let (lane, _) = script.line(number)?;
    Some(lane)
}

/// The number of a line that the bytes up to the first blank spell.
fn number_at(bytes: &[u8]) -> Option<u32>
    ensures { (number : ℕ) → (rest : List ℕ) → 1 ≤ number → number ≤ LINE_LIMIT
        → bytes.now ≡ decimal number ++ 32 ∷ rest → result ≡ Some number }
{
    let end = bytes.iter().position(|byte| *byte == b' ')?;
    LineNumber::of(&bytes[..end])
}
