//! Questions about a credential, and the files and permissions that they name.
ghost use Rattle.std.specs.Prelude.{◌≡◌, ◌≤◌, ◌+◌, ◌++◌, OnOk};
ghost use Rattle.cred_report.specs.Questions.{file_text, want_text, query_text};
ghost use Rattle.cred_report.specs.Room.{LETTERS, CALL, BEFORE_CALL, BEFORE_FILE};

use crate::pen::{PARTS, Pen};
use crate::words::{prepend_number, prepend_word};
use cred_event::Query;
use cred_ids::NoMemory;
use cred_record::Want;
use cred_script::Script;

/// Writes the name of the file at this place among the script's files, and makes room for the
/// entry's other parts.
///
/// # Errors
///
/// `NoMemory` where the buffer cannot grow. Nothing is said of what it holds then.
pub(crate) fn prepend_file(out: &mut Pen, script: &Script, place: u32) -> Result<(), NoMemory>
    requires { BEFORE_FILE ≤ out.old.room }
    ensures text { OnOk result (out.new.text ≡ file_text script.now place ++ out.old.text) }
    ensures room { OnOk result (BEFORE_FILE ≤ out.new.room) }
{
    match script.name(place) {
        Some(name) => prepend_name(out, name),
        None => Ok(()),
    }
}

/// Writes the name, which may be of any length.
fn prepend_name(out: &mut Pen, name: &str) -> Result<(), NoMemory>
    ensures text { OnOk result (out.new.text ≡ name.now ++ out.old.text) }
    ensures room { OnOk result (BEFORE_FILE ≤ out.new.room) }
{
    let room = name.len().checked_add(PARTS).ok_or(NoMemory)?;
    out.reserve(room)?;
    out.piece(name.as_bytes());
    Ok(())
}

/// Writes the letters of the permissions that are wanted.
pub(crate) fn prepend_letters(out: &mut Pen, want: Want)
    requires { LETTERS ≤ out.old.room }
    ensures text { out.new.text ≡ want_text want ++ out.old.text }
    ensures room { out.old.room ≤ out.new.room + LETTERS }
{
    if want.x {
        prepend_word(out, "x");
    }
    if want.w {
        prepend_word(out, "w");
    }
    if want.r {
        prepend_word(out, "r");
    }
}

/// Writes the question.
///
/// # Errors
///
/// `NoMemory` where the buffer cannot grow. Nothing is said of what it holds then.
pub(crate) fn prepend_query(out: &mut Pen, script: &Script, query: Query) -> Result<(), NoMemory>
    requires { BEFORE_CALL + CALL ≤ out.old.room }
    ensures text { OnOk result (out.new.text ≡ query_text script.now query ++ out.old.text) }
    ensures room { OnOk result (BEFORE_CALL ≤ out.new.room) }
{
    match query {
        Query::Ids => prepend_word(out, "ids"),
        Query::Caps => prepend_word(out, "caps"),
        Query::Groups => prepend_word(out, "groups"),
        Query::Bits => prepend_word(out, "bits"),
        Query::Capable(cap) => prepend_number(out, "capable ", cap),
        Query::Bset(cap) => prepend_number(out, "bset ", cap),
        Query::AmbIs(cap) => prepend_number(out, "ambis ", cap),
        Query::Check { file, want } => {
            prepend_letters(out, want);
            prepend_word(out, " ");
            prepend_file(out, script, file)?;
            prepend_word(out, "check ")
        }
    }
    Ok(())
}
