//! Events on files.
ghost use Rattle.std.specs.Prelude.{◌≡◌, ◌≤◌, ◌<◌, ◌+◌, ◌++◌, OnOk, slice_index};
ghost use Rattle.hex.specs.Hex.{encode_lower, lower_digits};
ghost use Rattle.cred_report.specs.Events.{event_text};
ghost use Rattle.cred_report.specs.Room.{EVENT, BEFORE_EVENT};

use crate::numbers::prepend_arg;
use crate::pen::{PARTS, Pen};
use crate::questions::prepend_file;
use crate::told::prepend_mode;
use crate::words::{prepend_number, prepend_word};
use cred_event::Event;
use cred_ids::{Arg, NoMemory};
use cred_record::Attr;
use cred_script::Script;

/// The digits, by their values.
const DIGITS: &[u8; 16] = b"0123456789abcdef";

/// The digit of a number below 16.
fn digit(number: u8) -> u8
    requires { number < 16 }
    ensures { result ≡ slice_index lower_digits number }
{
    DIGITS[usize::from(number)]
}

/// Writes the bytes in hexadecimal digits, and makes room for the entry's other parts.
fn prepend_hex(out: &mut Pen, bytes: &[u8]) -> Result<(), NoMemory>
    ensures text { OnOk result (out.new.text ≡ encode_lower bytes.now ++ out.old.text) }
    ensures room { OnOk result (PARTS ≤ out.new.room) }
{
    out.reserve(PARTS)?;
    for byte in bytes.iter().rev() {
        out.piece(&[digit(*byte / 16), digit(*byte % 16)]);
        out.reserve(PARTS)?;
    }
    Ok(())
}

/// Writes a change of the file's owner and group.
///
/// # Errors
///
/// `NoMemory` where the buffer cannot grow. Nothing is said of what it holds then.
pub(crate) fn prepend_chown(
    out: &mut Pen,
    script: &Script,
    hold: u32,
    file: u32,
    owner: Arg,
    group: Arg,
) -> Result<(), NoMemory>
    requires { BEFORE_EVENT + EVENT ≤ out.old.room }
    ensures text { OnOk result (out.new.text
        ≡ event_text script.now (Event.Chown hold file owner group) ++ out.old.text) }
    ensures room { OnOk result (BEFORE_EVENT ≤ out.new.room) }
{
    prepend_arg(out, group);
    prepend_arg(out, owner);
    prepend_file(out, script, file)?;
    prepend_word(out, " ");
    prepend_number(out, "chown h", hold);
    Ok(())
}

/// Writes a change of its mode.
///
/// # Errors
///
/// `NoMemory` where the buffer cannot grow. Nothing is said of what it holds then.
pub(crate) fn prepend_chmod(
    out: &mut Pen,
    script: &Script,
    hold: u32,
    file: u32,
    mode: u16,
) -> Result<(), NoMemory>
    requires { BEFORE_EVENT + EVENT ≤ out.old.room }
    ensures text { OnOk result (out.new.text
        ≡ event_text script.now (Event.Chmod hold file mode) ++ out.old.text) }
    ensures room { OnOk result (BEFORE_EVENT ≤ out.new.room) }
{
    prepend_mode(out, mode);
    prepend_file(out, script, file)?;
    prepend_word(out, " ");
    prepend_number(out, "chmod h", hold);
    Ok(())
}

/// Writes a change of its attribute.
///
/// # Errors
///
/// `NoMemory` where the buffer cannot grow. Nothing is said of what it holds then.
pub(crate) fn prepend_set_attr(
    out: &mut Pen,
    script: &Script,
    hold: u32,
    file: u32,
    attr: &Option<Attr>,
) -> Result<(), NoMemory>
    requires { BEFORE_EVENT + EVENT ≤ out.old.room }
    ensures text { OnOk result (out.new.text
        ≡ event_text script.now (Event.SetAttr hold file attr.now) ++ out.old.text) }
    ensures room { OnOk result (BEFORE_EVENT ≤ out.new.room) }
{
    match attr {
        Some(bytes) => {
            prepend_hex(out, bytes.items())?;
            prepend_word(out, " ");
            prepend_file(out, script, file)?;
            prepend_word(out, " ");
            prepend_number(out, "setattr h", hold)
        }
        None => {
            prepend_file(out, script, file)?;
            prepend_word(out, " ");
            prepend_number(out, "clearattr h", hold)
        }
    }
    Ok(())
}

/// Writes the question how it stands.
///
/// # Errors
///
/// `NoMemory` where the buffer cannot grow. Nothing is said of what it holds then.
pub(crate) fn prepend_stat(
    out: &mut Pen,
    script: &Script,
    hold: u32,
    file: u32,
) -> Result<(), NoMemory>
    requires { BEFORE_EVENT + EVENT ≤ out.old.room }
    ensures text { OnOk result (out.new.text
        ≡ event_text script.now (Event.Stat hold file) ++ out.old.text) }
    ensures room { OnOk result (BEFORE_EVENT ≤ out.new.room) }
{
    prepend_file(out, script, file)?;
    prepend_word(out, " ");
    prepend_number(out, "stat h", hold);
    Ok(())
}
