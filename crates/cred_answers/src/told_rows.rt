//! Which answers a question may be given.
ghost use Rattle.std.specs.Prelude.{◌≡◌};
ghost use Rattle.cred_answers.specs.Rows as spec;

use cred_caps::Cap;
use cred_event::{Answer, Query, Told};

/// The question `ids`.
fn ids_row(answer: &Answer) -> bool
    ensures { result ≡ spec.ids_row answer.now }
{
    matches!(answer, Answer::NoHold(_) | Answer::Told(Told::Ids { .. }))
}

/// The question `caps`.
fn caps_row(answer: &Answer) -> bool
    ensures { result ≡ spec.caps_row answer.now }
{
    matches!(answer, Answer::NoHold(_) | Answer::Told(Told::Caps { .. }))
}

/// The question `groups`.
fn groups_row(answer: &Answer) -> bool
    ensures { result ≡ spec.groups_row answer.now }
{
    matches!(answer, Answer::NoHold(_) | Answer::Told(Told::Groups(_)))
}

/// The question `bits`.
fn bits_row(answer: &Answer) -> bool
    ensures { result ≡ spec.bits_row answer.now }
{
    matches!(answer, Answer::NoHold(_) | Answer::Told(Told::Bits { .. }))
}

/// A question whether a set has a capability.
fn capable_row(answer: &Answer) -> bool
    ensures { result ≡ spec.capable_row answer.now }
{
    matches!(answer, Answer::NoHold(_) | Answer::Told(Told::Flag(_)))
}

/// The same question about a number that is no capability's.
fn no_cap_row(answer: &Answer) -> bool
    ensures { result ≡ spec.no_cap_row answer.now }
{
    matches!(answer, Answer::NoHold(_) | Answer::Einval)
}

/// A question whether a set has the capability of this number.
fn cap_row(cap: u32, answer: &Answer) -> bool
    ensures { result ≡ spec.cap_row cap answer.now }
{
    if cap > Cap::LAST {
        no_cap_row(answer)
    } else {
        capable_row(answer)
    }
}

/// The check of a file.
fn check_row(answer: &Answer) -> bool
    ensures { result ≡ spec.check_row answer.now }
{
    matches!(answer, Answer::NoHold(_) | Answer::Eacces | Answer::Done)
}

/// Whether a question may be given this answer.
pub(crate) fn may_tell(query: Query, answer: &Answer) -> bool
    ensures { result ≡ spec.may_tell query answer.now }
{
    match query {
        Query::Ids => ids_row(answer),
        Query::Caps => caps_row(answer),
        Query::Groups => groups_row(answer),
        Query::Bits => bits_row(answer),
        Query::Capable(cap) | Query::Bset(cap) | Query::AmbIs(cap) => cap_row(cap, answer),
        Query::Check { .. } => check_row(answer),
    }
}
