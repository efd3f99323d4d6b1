//! Which answers a call on a file may be given, by its arguments.
ghost use Rattle.std.specs.Prelude.{◌≡◌};
ghost use Rattle.cred_answers.specs.Rows as spec;

use crate::call_rows::is_given;
use cred_attr::is_attr;
use cred_event::{Answer, Told};
use cred_ids::Arg;
use cred_record::Attr;

/// chown(2): a call that gives neither an owner nor a group is refused to nobody.
pub(crate) fn chown_row(owner: Arg, group: Arg, answer: &Answer) -> bool
    ensures { result ≡ spec.chown_row owner group answer.now }
{
    match answer {
        Answer::NoHold(_) | Answer::Done => true,
        Answer::Eperm => is_given(owner) || is_given(group),
        _ => false,
    }
}

/// chmod(2).
pub(crate) fn chmod_row(answer: &Answer) -> bool
    ensures { result ≡ spec.chmod_row answer.now }
{
    matches!(answer, Answer::NoHold(_) | Answer::Eperm | Answer::Done)
}

/// setxattr(2) and removexattr(2): bytes that are no attribute are given to no file.
pub(crate) fn set_attr_row(attr: &Option<Attr>, answer: &Answer) -> bool
    ensures { result ≡ spec.set_attr_row attr.now answer.now }
{
    match answer {
        Answer::NoHold(_) | Answer::Eperm => true,
        Answer::Einval => !is_attr(attr),
        Answer::Done => is_attr(attr),
        _ => false,
    }
}

/// stat(2).
pub(crate) fn stat_row(answer: &Answer) -> bool
    ensures { result ≡ spec.stat_row answer.now }
{
    matches!(answer, Answer::NoHold(_) | Answer::Told(Told::File { .. }))
}
