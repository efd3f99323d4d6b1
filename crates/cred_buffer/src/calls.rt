//! The calls that set ids, and the changes of a prepared credential.
ghost use Rattle.std.specs.Prelude.{◌≡◌, ◌≤◌, ◌+◌, ◌*◌, ◌++◌, OnOk, codes, decimal, length};
ghost use Rattle.cred_report.specs.Calls.{call_text, adjust_text, change_text};
ghost use Rattle.cred_report.specs.Numbers.{arg_text, ids_text, set_text};
ghost use Rattle.cred_report.specs.Questions.{file_text};
ghost use Rattle.cred_report.specs.Room.{ARG, CALL, NUMBER};
ghost use Rattle.cred_buffer.specs.Room.{END};

use crate::pen::{ForwardPen, PARTS};
use cred_caps::CapSet;
use cred_event::Change;
use cred_ids::{Arg, Id, Kind, NoMemory};
use cred_record::{AdjCall, IdCall};
use cred_script::Script;

/// Writes the word and the number, in decimal.
#[inline(always)]
pub(crate) fn write_number(out: &mut ForwardPen, word: &str, number: u32)
    requires { length word.now + NUMBER ≤ out.old.room }
    ensures text { out.new.text ≡ out.old.text ++ (word.now ++ decimal number) }
    ensures room { out.old.room ≤ out.new.room + (length word.now + NUMBER) }
{
    out.word(word);
    out.number(u64::from(number))
}

/// Writes the argument of an id call.
#[inline(always)]
fn write_arg(out: &mut ForwardPen, arg: Arg)
    requires { ARG ≤ out.old.room }
    ensures text { out.new.text ≡ out.old.text ++ arg_text arg }
    ensures room { out.old.room ≤ out.new.room + ARG }
{
    match arg {
        Arg::Keep => out.word(" -1"),
        Arg::Set(id) => write_number(out, " ", id.number()),
    }
}

/// Writes a call of one argument.
#[inline(always)]
fn write_one_arg(out: &mut ForwardPen, word: &str, id: Arg)
    requires { length word.now + ARG ≤ out.old.room }
    ensures text { out.new.text ≡ out.old.text ++ (word.now ++ arg_text id) }
    ensures room { out.old.room ≤ out.new.room + (length word.now + ARG) }
{
    out.word(word);
    write_arg(out, id)
}

/// Writes a call of two arguments.
#[inline(always)]
fn write_two_args(out: &mut ForwardPen, word: &str, real: Arg, effective: Arg)
    requires { length word.now + 2 * ARG ≤ out.old.room }
    ensures text { out.new.text
        ≡ out.old.text ++ (word.now ++ arg_text real ++ arg_text effective) }
    ensures room { out.old.room ≤ out.new.room + (length word.now + 2 * ARG) }
{
    write_one_arg(out, word, real);
    write_arg(out, effective)
}

/// Writes a call of three arguments.
#[inline(always)]
fn write_three_args(out: &mut ForwardPen, word: &str, real: Arg, effective: Arg, saved: Arg)
    requires { length word.now + 3 * ARG ≤ out.old.room }
    ensures text { out.new.text
        ≡ out.old.text ++ (word.now ++ arg_text real ++ arg_text effective ++ arg_text saved) }
    ensures room { out.old.room ≤ out.new.room + (length word.now + 3 * ARG) }
{
    write_two_args(out, word, real, effective);
    write_arg(out, saved)
}

/// Writes the ids in their order, and makes room for the entry's other parts.
///
/// # Errors
///
/// `NoMemory` where the buffer cannot grow. Nothing is said of what it holds then.
fn write_list(out: &mut ForwardPen, ids: &[Id]) -> Result<(), NoMemory>
    ensures text { OnOk result (out.new.text ≡ out.old.text ++ ids_text ids.now) }
    ensures room { OnOk result (PARTS ≤ out.new.room) }
{
    out.reserve(PARTS)?;
    for id in ids {
        write_number(out, " ", id.number());
        out.reserve(PARTS)?;
    }
    Ok(())
}

/// Writes the id call.
///
/// # Errors
///
/// `NoMemory` where the buffer cannot grow. Nothing is said of what it holds then.
#[inline(always)]
pub(crate) fn write_call(out: &mut ForwardPen, call: &IdCall) -> Result<(), NoMemory>
    requires { CALL + END ≤ out.old.room }
    ensures text { OnOk result (out.new.text ≡ out.old.text ++ call_text call.now) }
    ensures room { OnOk result (END ≤ out.new.room) }
{
    match call {
        IdCall::SetUid(id) => write_one_arg(out, "setuid", *id),
        IdCall::SetEuid(id) => write_one_arg(out, "seteuid", *id),
        IdCall::SetReuid(real, effective) => write_two_args(out, "setreuid", *real, *effective),
        IdCall::SetResuid(real, effective, saved) => {
            write_three_args(out, "setresuid", *real, *effective, *saved)
        }
        IdCall::SetGid(id) => write_one_arg(out, "setgid", *id),
        IdCall::SetEgid(id) => write_one_arg(out, "setegid", *id),
        IdCall::SetRegid(real, effective) => write_two_args(out, "setregid", *real, *effective),
        IdCall::SetResgid(real, effective, saved) => {
            write_three_args(out, "setresgid", *real, *effective, *saved)
        }
        IdCall::SetGroups(groups) => {
            out.word("setgroups");
            write_list(out, groups.items())?
        }
    }
    Ok(())
}

/// Writes the set after a space, and makes room for the entry's other parts. Most sets of a report
/// are empty or full: those are written as words.
///
/// # Errors
///
/// `NoMemory` where the buffer cannot grow. Nothing is said of what it holds then.
pub(crate) fn write_set(out: &mut ForwardPen, set: CapSet) -> Result<(), NoMemory>
    ensures text { OnOk result (out.new.text ≡ out.old.text ++ set_text set) }
    ensures room { OnOk result (END ≤ out.new.room) }
{
    out.reserve(PARTS)?;
    match set.bits() {
        0 => out.word(" 0"),
        0x1ff_ffff_ffff => out.word(" 1ffffffffff"),
        _ => out.set_digits(set)?,
    }
    Ok(())
}

/// Writes the change of sets or securebits.
#[inline(always)]
fn write_adjust(out: &mut ForwardPen, call: AdjCall) -> Result<(), NoMemory>
    requires { CALL + END ≤ out.old.room }
    ensures text { OnOk result (out.new.text ≡ out.old.text ++ adjust_text call) }
    ensures room { OnOk result (END ≤ out.new.room) }
{
    match call {
        AdjCall::Capset { perm, inh, eff } => {
            out.word("capset");
            write_set(out, perm)?;
            write_set(out, inh)?;
            write_set(out, eff)?
        }
        AdjCall::BoundDrop(cap) => write_number(out, "capdrop ", cap),
        AdjCall::AmbRaise(cap) => write_number(out, "ambraise ", cap),
        AdjCall::AmbLower(cap) => write_number(out, "amblower ", cap),
        AdjCall::AmbClear => out.word("ambclear"),
        AdjCall::Bits(bits) => write_number(out, "securebits ", bits),
        AdjCall::KeepCaps(value) => write_number(out, "keepcaps ", value),
        AdjCall::NoNewPrivs(value) => write_number(out, "nonewprivs ", value),
    }
    Ok(())
}

/// Writes the name of the file at this place among the script's files, and makes room for the
/// entry's other parts.
///
/// # Errors
///
/// `NoMemory` where the buffer cannot grow. Nothing is said of what it holds then.
pub(crate) fn write_file(out: &mut ForwardPen, script: &Script, place: u32) -> Result<(), NoMemory>
    ensures text { OnOk result (out.new.text ≡ out.old.text ++ file_text script.now place) }
    ensures room { OnOk result (PARTS ≤ out.new.room) }
{
    match script.name(place) {
        Some(name) => {
            let room = name.len().checked_add(PARTS).ok_or(NoMemory)?;
            out.reserve(room)?;
            out.piece(name.as_bytes());
            Ok(())
        }
        None => out.reserve(PARTS),
    }
}

/// Writes the change.
///
/// # Errors
///
/// `NoMemory` where the buffer cannot grow. Nothing is said of what it holds then.
#[inline(always)]
pub(crate) fn write_change(
    out: &mut ForwardPen,
    script: &Script,
    change: Change,
) -> Result<(), NoMemory>
    requires { CALL + END ≤ out.old.room }
    ensures text { OnOk result (out.new.text ≡ out.old.text ++ change_text script.now change) }
    ensures room { OnOk result (END ≤ out.new.room) }
{
    match change {
        Change::SetFs(Kind::User, id) => write_one_arg(out, "setfsuid", id),
        Change::SetFs(Kind::Group, id) => write_one_arg(out, "setfsgid", id),
        Change::Adjust(call) => write_adjust(out, call)?,
        Change::Exec { file } => {
            out.word("exec ");
            write_file(out, script, file)?
        }
        Change::Access => out.word("access"),
    }
    Ok(())
}
