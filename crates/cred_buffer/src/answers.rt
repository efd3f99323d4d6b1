//! The end of an entry: the answers that most events are given, each between ` -> ` and the end of
//! the line.
ghost use Rattle.std.specs.Prelude.{◌≡◌, ◌≤◌, ◌+◌, ◌++◌, OnOk, codes, decimal, length};
ghost use Rattle.cred_event.specs.declared.answer.Told.TheVariants as told;
ghost use Rattle.cred_report.specs.Answers.{answer_text};
ghost use Rattle.cred_report.specs.Numbers.{set_text};
ghost use Rattle.cred_report.specs.Room.{IDS, SEALED};
ghost use Rattle.cred_report.specs.Told.{ids4_text};
ghost use Rattle.cred_buffer.specs.Room.{END};

use crate::calls::write_set;
use crate::pen::ForwardPen;
use cred_caps::CapSet;
use cred_event::{Answer, Told};
use cred_ids::{Id, Ids4, NoMemory};

/// Writes the word, the number of a sealed credential and its slot.
#[inline(always)]
fn write_cred(out: &mut ForwardPen, word: &str, cred: u64, slot: u32)
    requires { length word.now + SEALED ≤ out.old.room }
    ensures text { out.new.text
        ≡ out.old.text ++ (word.now ++ decimal cred ++ codes " s" ++ decimal slot) }
    ensures room { out.old.room ≤ out.new.room + (length word.now + SEALED) }
{
    out.word(word);
    out.cred(cred);
    out.word(" s");
    out.slot(slot)
}

/// Writes the answer to an event that seals a credential or takes one.
#[inline(always)]
pub(crate) fn write_sealed(out: &mut ForwardPen, cred: u64, slot: u32)
    requires { END ≤ out.old.room }
    ensures { out.new.text ≡ out.old.text
        ++ (codes " -> " ++ answer_text (Answer.Sealed cred slot) ++ codes "\n") }
{
    write_cred(out, " -> ok c", cred, slot);
    out.word("\n")
}

/// Writes the answer to a preparation.
#[inline(always)]
pub(crate) fn write_kept(out: &mut ForwardPen, slot: u32)
    requires { END ≤ out.old.room }
    ensures { out.new.text ≡ out.old.text
        ++ (codes " -> " ++ answer_text (Answer.Kept slot) ++ codes "\n") }
{
    out.word(" -> ok s");
    out.number(u64::from(slot));
    out.word("\n")
}

/// Writes the answer to a change of the filesystem ids.
#[inline(always)]
pub(crate) fn write_previous(out: &mut ForwardPen, previous: Id)
    requires { END ≤ out.old.room }
    ensures { out.new.text ≡ out.old.text
        ++ (codes " -> " ++ answer_text (Answer.Was previous) ++ codes "\n") }
{
    out.word(" -> ok was ");
    out.number(u64::from(previous.number()));
    out.word("\n")
}

/// Writes the answer to an id call.
#[inline(always)]
pub(crate) fn write_began(out: &mut ForwardPen, cred: u64, slot: u32, left: u32)
    requires { END ≤ out.old.room }
    ensures { out.new.text ≡ out.old.text
        ++ (codes " -> " ++ answer_text (Answer.Began cred slot left) ++ codes "\n") }
{
    write_cred(out, " -> ok c", cred, slot);
    out.word(" left ");
    out.number(u64::from(left));
    out.word("\n")
}

/// Writes the answer of a thread that followed a broadcast.
#[inline(always)]
pub(crate) fn write_acted(out: &mut ForwardPen, task: u32, cred: u64, slot: u32, left: u32)
    requires { END ≤ out.old.room }
    ensures { out.new.text ≡ out.old.text
        ++ (codes " -> " ++ answer_text (Answer.Acted task cred slot left) ++ codes "\n") }
{
    out.word(" -> ok t");
    out.number(u64::from(task));
    write_cred(out, " c", cred, slot);
    out.word(" left ");
    out.number(u64::from(left));
    out.word("\n")
}

/// Writes the answer to a question that is answered by yes or no.
#[inline(always)]
pub(crate) fn write_flag(out: &mut ForwardPen, flag: bool)
    requires { END ≤ out.old.room }
    ensures { out.new.text ≡ out.old.text
        ++ (codes " -> " ++ answer_text (Answer.Told (told.Flag flag)) ++ codes "\n") }
{
    if flag {
        out.word(" -> ok 1\n")
    } else {
        out.word(" -> ok 0\n")
    }
}

/// Writes the four ids of a kind.
fn write_ids4(out: &mut ForwardPen, ids: Ids4)
    requires { IDS ≤ out.old.room }
    ensures text { out.new.text ≡ out.old.text ++ ids4_text ids }
    ensures room { out.old.room ≤ out.new.room + IDS }
{
    out.word(" ");
    out.number(u64::from(ids.real.number()));
    out.word(" ");
    out.number(u64::from(ids.effective.number()));
    out.word(" ");
    out.number(u64::from(ids.saved.number()));
    out.word(" ");
    out.number(u64::from(ids.fs.number()))
}

/// Writes the answer to the question for the ids.
pub(crate) fn write_ids(out: &mut ForwardPen, uid: Ids4, gid: Ids4)
    requires { END ≤ out.old.room }
    ensures { out.new.text ≡ out.old.text
        ++ (codes " -> " ++ answer_text (Answer.Told (told.Ids uid gid)) ++ codes "\n") }
{
    out.word(" -> ok");
    write_ids4(out, uid);
    write_ids4(out, gid);
    out.word("\n")
}

/// Writes the answer to the question for the capability sets.
///
/// # Errors
///
/// `NoMemory` where the buffer cannot grow. Nothing is said of what it holds then.
pub(crate) fn write_caps(
    out: &mut ForwardPen,
    perm: CapSet,
    inh: CapSet,
    eff: CapSet,
    bound: CapSet,
    amb: CapSet,
) -> Result<(), NoMemory>
    requires { END ≤ out.old.room }
    ensures { OnOk result (out.new.text ≡ out.old.text
        ++ (codes " -> " ++ answer_text (Answer.Told (told.Caps perm inh eff bound amb))
        ++ codes "\n")) }
{
    out.word(" -> ok");
    write_set(out, perm)?;
    write_set(out, inh)?;
    write_set(out, eff)?;
    write_set(out, bound)?;
    write_set(out, amb)?;
    out.word("\n");
    Ok(())
}
