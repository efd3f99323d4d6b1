//! The values that answer a question.
ghost use Rattle.std.specs.Prelude.{◌≡◌, ◌≤◌, ◌<◌, ◌+◌, ◌++◌, OnOk, codes, length};
ghost use Rattle.cred_report.specs.Told as spec;
ghost use Rattle.cred_report.specs.Told.{ids4_text, mode_text, told_text};
ghost use Rattle.cred_report.specs.Room.{IDS, MODE, ANSWER, BEFORE_ANSWER};

use crate::numbers::{prepend_flag, prepend_ids, prepend_set, prepend_sets};
use crate::pen::Pen;
use crate::words::{prepend_number, prepend_two, prepend_word};
use cred_event::Told;
use cred_ids::{Ids4, NoMemory};

/// Writes the four ids of a kind.
fn prepend_ids4(out: &mut Pen, ids: Ids4)
    requires { IDS ≤ out.old.room }
    ensures text { out.new.text ≡ ids4_text ids ++ out.old.text }
    ensures room { out.old.room ≤ out.new.room + IDS }
{
    prepend_two(out, (" ", ids.saved.number()), (" ", ids.fs.number()));
    prepend_two(out, (" ", ids.real.number()), (" ", ids.effective.number()))
}

/// Writes the mode, in four octal digits after a space.
#[tactic(auto, unfolding(crate::specs::Told::mode_text))]
pub(crate) fn prepend_mode(out: &mut Pen, mode: u16)
    requires { MODE ≤ out.old.room }
    ensures text { out.new.text ≡ mode_text mode ++ out.old.text }
    ensures room { out.old.room ≤ out.new.room + MODE }
{
    let digits = [
        b' ',
        octal(mode / 512 % 8),
        octal(mode / 64 % 8),
        octal(mode / 8 % 8),
        octal(mode % 8),
    ];
    out.piece(&digits)
}

/// An octal digit.
fn octal(digit: u16) -> u8
    requires { digit < 8 }
    ensures { result ≡ spec.octal digit }
{
    b'0' + digit as u8
}

/// Writes `ok`, and the values after it.
///
/// # Errors
///
/// `NoMemory` where the buffer cannot grow. Nothing is said of what it holds then.
pub(crate) fn prepend_told(out: &mut Pen, told: &Told) -> Result<(), NoMemory>
    requires { BEFORE_ANSWER + ANSWER ≤ out.old.room }
    ensures text { OnOk result (out.new.text
        ≡ (codes "ok" ++ told_text told.now) ++ out.old.text) }
    ensures room { OnOk result (BEFORE_ANSWER ≤ out.new.room) }
{
    prepend_values(out, told)?;
    prepend_word(out, "ok");
    Ok(())
}

/// Writes the values.
fn prepend_values(out: &mut Pen, told: &Told) -> Result<(), NoMemory>
    requires { BEFORE_ANSWER + ANSWER ≤ out.old.room }
    ensures text { OnOk result (out.new.text ≡ told_text told.now ++ out.old.text) }
    ensures room { OnOk result (BEFORE_ANSWER + length (codes "ok") ≤ out.new.room) }
{
    match told {
        Told::Ids { uid, gid } => {
            prepend_ids4(out, *gid);
            prepend_ids4(out, *uid)
        }
        Told::Caps {
            perm,
            inh,
            eff,
            bound,
            amb,
        } => {
            prepend_set(out, *amb);
            prepend_set(out, *bound);
            prepend_sets(out, *perm, *inh, *eff)
        }
        Told::Groups(groups) => prepend_ids(out, groups.items())?,
        Told::Bits { bits, nnp } => {
            prepend_flag(out, *nnp);
            prepend_number(out, " ", bits.number())
        }
        Told::Flag(flag) => prepend_flag(out, *flag),
        Told::File {
            owner,
            group,
            mode,
            attr,
        } => {
            prepend_flag(out, *attr);
            prepend_mode(out, *mode);
            prepend_two(out, (" ", owner.number()), (" ", group.number()))
        }
    }
    Ok(())
}
