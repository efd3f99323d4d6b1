//! Which answers an id call and a change of sets or securebits may be given, by their arguments.
ghost use Rattle.std.specs.Prelude.{◌≡◌};
ghost use Rattle.cred_rules.specs.SetId.{is_given};
ghost use Rattle.cred_answers.specs.CallRows as spec;

use cred_caps::{Cap, LAST_BITS};
use cred_event::{Answer, Named};
use cred_ids::{Arg, limits};
use cred_record::{AdjCall, IdCall};

/// Whether an id is given.
pub(crate) fn is_given(id: Arg) -> bool
    ensures { result ≡ is_given id }
{
    matches!(id, Arg::Set(_))
}

/// Whether the call is invalid, whoever makes it.
fn is_invalid(call: &IdCall) -> bool
    ensures { result ≡ spec.is_invalid call.now }
{
    match call {
        IdCall::SetUid(id) | IdCall::SetEuid(id) | IdCall::SetGid(id) | IdCall::SetEgid(id) => {
            !is_given(*id)
        }
        IdCall::SetReuid(_, _)
        | IdCall::SetResuid(_, _, _)
        | IdCall::SetRegid(_, _)
        | IdCall::SetResgid(_, _, _) => false,
        IdCall::SetGroups(groups) => groups.items().len() > limits::GROUP_LIMIT,
    }
}

/// Whether some caller may not make the call.
fn may_be_denied(call: &IdCall) -> bool
    ensures { result ≡ spec.may_be_denied call.now }
{
    match call {
        IdCall::SetUid(id) | IdCall::SetEuid(id) | IdCall::SetGid(id) | IdCall::SetEgid(id) => {
            is_given(*id)
        }
        IdCall::SetReuid(real, effective) | IdCall::SetRegid(real, effective) => {
            is_given(*real) || is_given(*effective)
        }
        IdCall::SetResuid(real, effective, saved) | IdCall::SetResgid(real, effective, saved) => {
            is_given(*real) || is_given(*effective) || is_given(*saved)
        }
        IdCall::SetGroups(_) => true,
    }
}

/// An id call.
pub(crate) fn begin_row(call: &IdCall, answer: &Answer) -> bool
    ensures { result ≡ spec.begin_row call.now answer.now }
{
    match answer {
        Answer::NoTask(_)
        | Answer::Busy(_)
        | Answer::Exists {
            what: Named::Broadcast,
            ..
        }
        | Answer::Overridden(_) => true,
        Answer::Eperm => may_be_denied(call),
        Answer::Einval => is_invalid(call),
        Answer::TableFull | Answer::Began { .. } => !is_invalid(call),
        _ => false,
    }
}

/// An id call of one thread alone.
pub(crate) fn raw_row(call: &IdCall, answer: &Answer) -> bool
    ensures { result ≡ spec.raw_row call.now answer.now }
{
    match answer {
        Answer::NoTask(_) | Answer::Busy(_) | Answer::Overridden(_) => true,
        Answer::Eperm => may_be_denied(call),
        Answer::Einval => is_invalid(call),
        Answer::TableFull | Answer::Sealed { .. } => !is_invalid(call),
        _ => false,
    }
}

/// Whether the change can't take the number.
fn is_wrong(call: AdjCall) -> bool
    ensures { result ≡ spec.is_wrong call }
{
    match call {
        AdjCall::BoundDrop(cap) | AdjCall::AmbRaise(cap) | AdjCall::AmbLower(cap) => {
            cap > Cap::LAST
        }
        AdjCall::KeepCaps(value) => value > 1,
        AdjCall::NoNewPrivs(value) => value != 1,
        AdjCall::Capset { .. } | AdjCall::AmbClear | AdjCall::Bits(_) => false,
    }
}

/// Whether some caller may not make the change.
fn may_be_refused(call: AdjCall) -> bool
    ensures { result ≡ spec.may_be_refused call }
{
    match call {
        AdjCall::Capset { perm, inh, eff } => {
            !(perm.bits() == 0 && inh.bits() == 0 && eff.bits() == 0)
        }
        AdjCall::BoundDrop(_) | AdjCall::Bits(_) => true,
        AdjCall::AmbRaise(_) | AdjCall::KeepCaps(_) => !is_wrong(call),
        AdjCall::AmbLower(_) | AdjCall::AmbClear | AdjCall::NoNewPrivs(_) => false,
    }
}

/// Whether some caller may make the change.
fn may_be_done(call: AdjCall) -> bool
    ensures { result ≡ spec.may_be_done call }
{
    match call {
        AdjCall::Capset { perm, eff, .. } => eff.within(&perm),
        AdjCall::Bits(bits) => bits <= LAST_BITS,
        AdjCall::NoNewPrivs(value) => value == 1,
        AdjCall::BoundDrop(_)
        | AdjCall::AmbRaise(_)
        | AdjCall::AmbLower(_)
        | AdjCall::AmbClear
        | AdjCall::KeepCaps(_) => !is_wrong(call),
    }
}

/// Capset(2) and the calls of prctl(2).
pub(crate) fn adjust_row(call: AdjCall, answer: &Answer) -> bool
    ensures { result ≡ spec.adjust_row call answer.now }
{
    match answer {
        Answer::NoPrepared(_) => true,
        Answer::Eperm => may_be_refused(call),
        Answer::Einval => is_wrong(call),
        Answer::Done => may_be_done(call),
        _ => false,
    }
}
