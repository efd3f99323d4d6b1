//! The calls that set ids, and the changes of a prepared credential.
ghost use Rattle.std.specs.Prelude.{◌≡◌, ◌≤◌, ◌+◌, ◌*◌, ◌++◌, OnOk, length};
ghost use Rattle.cred_report.specs.Numbers.{arg_text};
ghost use Rattle.cred_report.specs.Calls.{call_text, adjust_text, change_text};
ghost use Rattle.cred_report.specs.Room.{ARG, CALL, BEFORE_CALL};

use crate::numbers::{prepend_arg, prepend_ids, prepend_sets};
use crate::pen::Pen;
use crate::questions::prepend_file;
use crate::words::{prepend_number, prepend_word};
use cred_event::Change;
use cred_ids::{Arg, Kind, NoMemory};
use cred_record::{AdjCall, IdCall};
use cred_script::Script;

/// Writes a call of one argument.
#[inline(always)]
fn prepend_one_arg(out: &mut Pen, word: &str, id: Arg)
    requires { length word.now + ARG ≤ out.old.room }
    ensures text { out.new.text ≡ (word.now ++ arg_text id) ++ out.old.text }
    ensures room { out.old.room ≤ out.new.room + (length word.now + ARG) }
{
    prepend_arg(out, id);
    prepend_word(out, word)
}

/// Writes a call of two arguments.
#[inline(always)]
fn prepend_two_args(out: &mut Pen, word: &str, real: Arg, effective: Arg)
    requires { length word.now + 2 * ARG ≤ out.old.room }
    ensures text { out.new.text
        ≡ (word.now ++ arg_text real ++ arg_text effective) ++ out.old.text }
    ensures room { out.old.room ≤ out.new.room + (length word.now + 2 * ARG) }
{
    prepend_arg(out, effective);
    prepend_one_arg(out, word, real)
}

/// Writes a call of three arguments.
#[inline(always)]
fn prepend_three_args(out: &mut Pen, word: &str, real: Arg, effective: Arg, saved: Arg)
    requires { length word.now + 3 * ARG ≤ out.old.room }
    ensures text { out.new.text
        ≡ (word.now ++ arg_text real ++ arg_text effective ++ arg_text saved) ++ out.old.text }
    ensures room { out.old.room ≤ out.new.room + (length word.now + 3 * ARG) }
{
    prepend_arg(out, saved);
    prepend_two_args(out, word, real, effective)
}

/// Writes the id call.
///
/// # Errors
///
/// `NoMemory` where the buffer cannot grow. Nothing is said of what it holds then.
pub(crate) fn prepend_call(out: &mut Pen, call: &IdCall) -> Result<(), NoMemory>
    requires { BEFORE_CALL + CALL ≤ out.old.room }
    ensures text { OnOk result (out.new.text ≡ call_text call.now ++ out.old.text) }
    ensures room { OnOk result (BEFORE_CALL ≤ out.new.room) }
{
    match call {
        IdCall::SetUid(id) => prepend_one_arg(out, "setuid", *id),
        IdCall::SetEuid(id) => prepend_one_arg(out, "seteuid", *id),
        IdCall::SetReuid(real, effective) => prepend_two_args(out, "setreuid", *real, *effective),
        IdCall::SetResuid(real, effective, saved) => {
            prepend_three_args(out, "setresuid", *real, *effective, *saved)
        }
        IdCall::SetGid(id) => prepend_one_arg(out, "setgid", *id),
        IdCall::SetEgid(id) => prepend_one_arg(out, "setegid", *id),
        IdCall::SetRegid(real, effective) => prepend_two_args(out, "setregid", *real, *effective),
        IdCall::SetResgid(real, effective, saved) => {
            prepend_three_args(out, "setresgid", *real, *effective, *saved)
        }
        IdCall::SetGroups(groups) => {
            prepend_ids(out, groups.items())?;
            prepend_word(out, "setgroups")
        }
    }
    Ok(())
}

/// Writes the change of sets or securebits.
fn prepend_adjust(out: &mut Pen, call: AdjCall)
    requires { CALL ≤ out.old.room }
    ensures text { out.new.text ≡ adjust_text call ++ out.old.text }
    ensures room { out.old.room ≤ out.new.room + CALL }
{
    match call {
        AdjCall::Capset { perm, inh, eff } => {
            prepend_sets(out, perm, inh, eff);
            prepend_word(out, "capset")
        }
        AdjCall::BoundDrop(cap) => prepend_number(out, "capdrop ", cap),
        AdjCall::AmbRaise(cap) => prepend_number(out, "ambraise ", cap),
        AdjCall::AmbLower(cap) => prepend_number(out, "amblower ", cap),
        AdjCall::AmbClear => prepend_word(out, "ambclear"),
        AdjCall::Bits(bits) => prepend_number(out, "securebits ", bits),
        AdjCall::KeepCaps(value) => prepend_number(out, "keepcaps ", value),
        AdjCall::NoNewPrivs(value) => prepend_number(out, "nonewprivs ", value),
    }
}

/// Writes the change.
///
/// # Errors
///
/// `NoMemory` where the buffer cannot grow. Nothing is said of what it holds then.
pub(crate) fn prepend_change(out: &mut Pen, script: &Script, change: Change) -> Result<(), NoMemory>
    requires { BEFORE_CALL + CALL ≤ out.old.room }
    ensures text { OnOk result (out.new.text ≡ change_text script.now change ++ out.old.text) }
    ensures room { OnOk result (BEFORE_CALL ≤ out.new.room) }
{
    match change {
        Change::SetFs(Kind::User, id) => prepend_one_arg(out, "setfsuid", id),
        Change::SetFs(Kind::Group, id) => prepend_one_arg(out, "setfsgid", id),
        Change::Adjust(call) => prepend_adjust(out, call),
        Change::Exec { file } => {
            prepend_file(out, script, file)?;
            prepend_word(out, "exec ")
        }
        Change::Access => prepend_word(out, "access"),
    }
    Ok(())
}
