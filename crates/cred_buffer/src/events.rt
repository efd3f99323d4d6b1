//! The start of an entry: the number of the line, and the events that most lines make, each after a
//! space.
ghost use Rattle.std.specs.Prelude.{◌≡◌, ◌≤◌, ◌+◌, ◌++◌, OnOk, codes, decimal, length};
ghost use Rattle.cred_report.specs.Calls.{call_text};
ghost use Rattle.cred_report.specs.Events.{event_text};
ghost use Rattle.cred_report.specs.Questions.{query_text, want_text};
ghost use Rattle.cred_report.specs.Room.{LETTERS, NUMBER};
ghost use Rattle.cred_buffer.specs.Room.{END};

use crate::calls::{write_call, write_change, write_file, write_number};
use crate::pen::{ForwardPen, PARTS};
use cred_event::{Change, Event, Query};
use cred_ids::NoMemory;
use cred_record::{IdCall, Want};
use cred_script::Script;

/// Writes the word and the label.
#[inline(always)]
pub(crate) fn write_label(out: &mut ForwardPen, word: &str, label: u32)
    requires { length word.now + NUMBER ≤ out.old.room }
    ensures text { out.new.text ≡ out.old.text ++ (word.now ++ decimal label) }
    ensures room { out.old.room ≤ out.new.room + (length word.now + NUMBER) }
{
    out.word(word);
    out.label(label)
}

/// Writes the letters of the permissions that are wanted.
#[inline(always)]
fn write_letters(out: &mut ForwardPen, want: Want)
    requires { LETTERS ≤ out.old.room }
    ensures text { out.new.text ≡ out.old.text ++ want_text want }
    ensures room { out.old.room ≤ out.new.room + LETTERS }
{
    if want.r {
        out.word("r");
    }
    if want.w {
        out.word("w");
    }
    if want.x {
        out.word("x");
    }
}

/// Writes the question.
#[inline(always)]
fn write_query(out: &mut ForwardPen, script: &Script, query: Query) -> Result<(), NoMemory>
    requires { length (codes "capable ") + NUMBER + END ≤ out.old.room }
    ensures text { OnOk result (out.new.text ≡ out.old.text ++ query_text script.now query) }
    ensures room { OnOk result (END ≤ out.new.room) }
{
    match query {
        Query::Ids => out.word("ids"),
        Query::Caps => out.word("caps"),
        Query::Groups => out.word("groups"),
        Query::Bits => out.word("bits"),
        Query::Capable(cap) => write_number(out, "capable ", cap),
        Query::Bset(cap) => write_number(out, "bset ", cap),
        Query::AmbIs(cap) => write_number(out, "ambis ", cap),
        Query::Check { file, want } => {
            out.word("check ");
            write_file(out, script, file)?;
            out.word(" ");
            write_letters(out, want)
        }
    }
    Ok(())
}

/// Writes the question on a label's credential.
///
/// # Errors
///
/// `NoMemory` where the buffer cannot grow. Nothing is said of what it holds then.
pub(crate) fn write_question(
    out: &mut ForwardPen,
    script: &Script,
    line: u32,
    label: u32,
    query: Query,
) -> Result<(), NoMemory>
    ensures text { OnOk result (out.new.text ≡ out.old.text
        ++ (decimal line ++ codes " " ++ event_text script.now (Event.Ask label query))) }
    ensures room { OnOk result (END ≤ out.new.room) }
{
    out.start(line)?;
    write_label(out, " ask h", label);
    out.word(" ");
    write_query(out, script, query)
}

/// Writes the preparation of a new credential for a task.
///
/// # Errors
///
/// `NoMemory` where the buffer cannot grow. Nothing is said of what it holds then.
#[inline(always)]
pub(crate) fn write_preparation(
    out: &mut ForwardPen,
    line: u32,
    label: u32,
    task: u32,
    hold: u32,
) -> Result<(), NoMemory>
    ensures text { OnOk result (out.new.text ≡ out.old.text
        ++ (decimal line ++ codes " prepare h" ++ decimal label ++ codes " t" ++ decimal task
        ++ codes " h" ++ decimal hold)) }
    ensures room { OnOk result (END ≤ out.new.room) }
{
    out.start(line)?;
    write_label(out, " prepare h", label);
    write_number(out, " t", task);
    write_label(out, " h", hold);
    Ok(())
}

/// Writes the change of a prepared credential.
///
/// # Errors
///
/// `NoMemory` where the buffer cannot grow. Nothing is said of what it holds then.
pub(crate) fn write_alteration(
    out: &mut ForwardPen,
    script: &Script,
    line: u32,
    label: u32,
    change: Change,
) -> Result<(), NoMemory>
    ensures text { OnOk result (out.new.text ≡ out.old.text
        ++ (decimal line ++ codes " " ++ event_text script.now (Event.Alter label change))) }
    ensures room { OnOk result (END ≤ out.new.room) }
{
    out.start(line)?;
    write_label(out, " change h", label);
    out.word(" ");
    write_change(out, script, change)
}

/// Writes the id call of a task.
///
/// # Errors
///
/// `NoMemory` where the buffer cannot grow. Nothing is said of what it holds then.
pub(crate) fn write_id_call(
    out: &mut ForwardPen,
    line: u32,
    task: u32,
    call: &IdCall,
) -> Result<(), NoMemory>
    ensures text { OnOk result (out.new.text ≡ out.old.text
        ++ (decimal line ++ codes " begin t" ++ decimal task ++ codes " " ++ call_text call.now)) }
    ensures room { OnOk result (END ≤ out.new.room) }
{
    out.start(line)?;
    write_number(out, " begin t", task);
    out.word(" ");
    write_call(out, call)
}
