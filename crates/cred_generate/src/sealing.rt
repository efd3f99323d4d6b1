//! How many credentials were sealed.
ghost use Rattle.std.specs.Prelude.{◌≡◌, ◌+◌, ◌<◌, ◌^◌, fold, length};
ghost use Rattle.cred_generate.specs.Sealed as spec;

use cred_event::{Answer, Entry};

/// How many credentials are sealed after the entries, by their answers, where `before` were sealed
/// before them.
pub(crate) fn sealed_after(before: u64, entries: &[Entry]) -> u64
    requires { before + length entries.now < 2 ^ 64 }
    ensures { result ≡ fold (λ count entry. spec.count_with count entry.answer) before entries.now }
{
    let mut count = before;
    for entry in entries {
        if number_named(&entry.answer) == Some(count) {
            count += 1;
        }
    }
    count
}

/// The number of the one credential that an answer of success names.
fn number_named(answer: &Answer) -> Option<u64>
    ensures { result ≡ spec.number_named answer.now }
{
    match answer {
        Answer::Sealed { cred, .. }
        | Answer::Executed { cred, .. }
        | Answer::Began { cred, .. }
        | Answer::Acted { cred, .. } => Some(*cred),
        _ => None,
    }
}
