//! What a call gives the four ids of its kind, or why it is refused. `able` says whether the caller
//! has the capability of the kind, CAP_SETUID or CAP_SETGID.
ghost use Rattle.std.specs.Prelude.{◌≡◌};
ghost use Rattle.cred_rules.specs.SetId.{id_or, is_given, is_other, is_one_of, after_setuid};
ghost use Rattle.cred_rules.specs.SetId.{after_setreuid, after_setresuid, after_seteuid};

use cred_ids::{Arg, Id, Ids4};
use cred_record::Denial;

/// The id that is given, or the old one.
fn id_or(a: Arg, old: Id) -> Id
    ensures { result ≡ id_or a old }
{
    match a {
        Arg::Keep => old,
        Arg::Set(id) => id,
    }
}

/// Whether an id is given that is not this one.
fn is_other(a: Arg, id: Id) -> bool
    ensures { result ≡ is_other a id }
{
    match a {
        Arg::Keep => false,
        Arg::Set(given) => given != id,
    }
}

/// Whether an id is given.
fn is_given(a: Arg) -> bool
    ensures { result ≡ is_given a }
{
    matches!(a, Arg::Set(_))
}

/// Whether the id that is given, if one is, is one of these.
fn is_one_of(a: Arg, ids: &[Id]) -> bool
    ensures { result ≡ is_one_of a ids.now }
{
    match a {
        Arg::Keep => true,
        Arg::Set(id) => ids.contains(&id),
    }
}

/// The ids after setuid(2) or setgid(2), where `able` says whether the caller has the capability.
///
/// # Errors
///
/// `Invalid` where no id is given; then `Perm` where a caller without the capability gives an id
/// that is neither its real nor its saved one.
#[tactic(auto, unfolding(cred_rules::specs::SetId::after_setuid))]
pub fn after_setuid(able: bool, ids: Ids4, a: Arg) -> Result<Ids4, Denial>
    ensures { result ≡ after_setuid able ids a }
{
    let Arg::Set(id) = a else {
        return Err(Denial::Invalid);
    };
    if able {
        Ok(Ids4::all(id))
    } else if ids.real == id || ids.saved == id {
        Ok(Ids4 {
            effective: id,
            fs: id,
            ..ids
        })
    } else {
        Err(Denial::Perm)
    }
}

/// The ids after setreuid(2) or setregid(2), where `able` says whether the caller has the
/// capability.
///
/// # Errors
///
/// `Perm` where a caller without the capability gives a real id that is neither the real nor the
/// effective one, or an effective id that is none of the three.
#[tactic(auto, unfolding(cred_rules::specs::SetId::after_setreuid))]
pub fn after_setreuid(able: bool, ids: Ids4, real: Arg, effective: Arg) -> Result<Ids4, Denial>
    ensures { result ≡ after_setreuid able ids real effective }
{
    let two = [ids.real, ids.effective];
    let three = [ids.real, ids.effective, ids.saved];
    if !(able || is_one_of(real, &two) && is_one_of(effective, &three)) {
        return Err(Denial::Perm);
    }
    let new = id_or(effective, ids.effective);
    let saved = if is_given(real) || is_other(effective, ids.real) {
        new
    } else {
        ids.saved
    };
    Ok(Ids4 {
        real: id_or(real, ids.real),
        effective: new,
        saved,
        fs: new,
    })
}

/// The ids after setresuid(2) or setresgid(2), where `able` says whether the caller has the
/// capability.
///
/// # Errors
///
/// `Perm` where a caller without the capability gives an id that is none of the three.
#[tactic(auto, unfolding(cred_rules::specs::SetId::after_setresuid))]
pub fn after_setresuid(
    able: bool,
    ids: Ids4,
    real: Arg,
    effective: Arg,
    saved: Arg,
) -> Result<Ids4, Denial>
    ensures { result ≡ after_setresuid able ids real effective saved }
{
    let three = [ids.real, ids.effective, ids.saved];
    let known = |a| is_one_of(a, &three);
    if !(able || known(real) && known(effective) && known(saved)) {
        return Err(Denial::Perm);
    }
    let new = id_or(effective, ids.effective);
    Ok(Ids4 {
        real: id_or(real, ids.real),
        effective: new,
        saved: id_or(saved, ids.saved),
        fs: new,
    })
}

/// The ids after seteuid(2) or setegid(2), where `able` says whether the caller has the capability.
///
/// # Errors
///
/// `Invalid` where no id is given; then `Perm` as for setresuid(2).
#[tactic(auto, unfolding(cred_rules::specs::SetId::after_seteuid))]
pub fn after_seteuid(able: bool, ids: Ids4, a: Arg) -> Result<Ids4, Denial>
    ensures { result ≡ after_seteuid able ids a }
{
    match a {
        Arg::Keep => Err(Denial::Invalid),
        Arg::Set(_) => after_setresuid(able, ids, Arg::Keep, a, Arg::Keep),
    }
}
