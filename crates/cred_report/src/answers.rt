//! The text of an answer.
ghost use Rattle.std.specs.Prelude.{◌≡◌, ◌≤◌, ◌+◌, ◌++◌, OnOk, codes, decimal, length};
ghost use Rattle.cred_report.specs.Answers.{exists_text, too_many_text, cause_text};
ghost use Rattle.cred_report.specs.Numbers.{set_text};
ghost use Rattle.cred_report.specs.Answers.{answer_text};
ghost use Rattle.cred_report.specs.Room.{WORD, SEALED, GAINS, ANSWER, BEFORE_ANSWER};

use crate::numbers::prepend_sets;
use crate::pen::Pen;
use crate::told::prepend_told;
use crate::words::{prepend_long, prepend_number, prepend_word};
use cred_event::{AbortCause, Answer, Counted, Named};
use cred_ids::NoMemory;
use cred_record::Gains;

/// The words before the number of what exists already.
fn exists_word(what: Named) -> &'static str
    ensures text { result.now ≡ exists_text what }
    ensures short { length result.now ≤ WORD }
{
    match what {
        Named::Task => "exists t",
        Named::Process => "exists p",
        Named::Label => "exists h",
        Named::File => "exists f",
        Named::Broadcast => "exists k",
    }
}

/// What there are too many of, in words.
fn too_many_words(counted: Counted) -> &'static str
    ensures text { result.now ≡ too_many_text counted }
    ensures short { length result.now ≤ WORD }
{
    match counted {
        Counted::Tasks => "too many tasks",
        Counted::Files => "too many files",
        Counted::Holds => "too many holds",
        Counted::Prepared => "too many prepared",
    }
}

/// Why a thread could not follow, in a word.
fn cause_word(cause: AbortCause) -> &'static str
    ensures text { result.now ≡ cause_text cause }
    ensures short { length result.now ≤ WORD }
{
    match cause {
        AbortCause::Perm => " eperm",
        AbortCause::Full => " full",
    }
}

/// Writes the word, the number of a sealed credential and its slot.
#[inline(always)]
fn prepend_sealed(out: &mut Pen, word: &str, cred: u64, slot: u32)
    requires { length word.now + SEALED ≤ out.old.room }
    ensures text { out.new.text
        ≡ (word.now ++ decimal cred ++ codes " s" ++ decimal slot) ++ out.old.text }
    ensures room { out.old.room ≤ out.new.room + (length word.now + SEALED) }
{
    out.slot(slot);
    prepend_word(out, " s");
    out.cred(cred);
    prepend_word(out, word)
}

/// Writes the answer to a preparation.
fn prepend_kept(out: &mut Pen, slot: u32)
    requires { ANSWER ≤ out.old.room }
    ensures text { out.new.text ≡ answer_text (Answer.Kept slot) ++ out.old.text }
    ensures room { out.old.room ≤ out.new.room + ANSWER }
{
    out.slot(slot);
    prepend_word(out, "ok s")
}

/// Writes how many threads ended, and what the file's attribute, inheritance and root gained.
fn prepend_gains(out: &mut Pen, ended: u32, gains: Gains)
    requires { GAINS ≤ out.old.room }
    ensures text { out.new.text
        ≡ (codes " ended " ++ decimal ended ++ codes " gain"
        ++ set_text gains.file ++ set_text gains.inherit ++ set_text gains.root)
        ++ out.old.text }
    ensures room { out.old.room ≤ out.new.room + GAINS }
{
    prepend_sets(out, gains.file, gains.inherit, gains.root);
    prepend_word(out, " gain");
    prepend_number(out, " ended ", ended)
}

/// Writes the answer to the commit of an exec.
fn prepend_executed(out: &mut Pen, cred: u64, slot: u32, ended: u32, gains: Gains)
    requires { ANSWER ≤ out.old.room }
    ensures text { out.new.text
        ≡ answer_text (Answer.Executed cred slot ended gains) ++ out.old.text }
    ensures room { out.old.room ≤ out.new.room + ANSWER }
{
    prepend_gains(out, ended, gains);
    prepend_sealed(out, "ok c", cred, slot)
}

/// Writes the answer to an id call.
#[inline(always)]
fn prepend_began(out: &mut Pen, cred: u64, slot: u32, left: u32)
    requires { ANSWER ≤ out.old.room }
    ensures text { out.new.text ≡ answer_text (Answer.Began cred slot left) ++ out.old.text }
    ensures room { out.old.room ≤ out.new.room + ANSWER }
{
    prepend_number(out, " left ", left);
    prepend_sealed(out, "ok c", cred, slot)
}

/// Writes the answer of a thread that followed a broadcast.
#[inline(always)]
fn prepend_acted(out: &mut Pen, task: u32, cred: u64, slot: u32, left: u32)
    requires { ANSWER ≤ out.old.room }
    ensures text { out.new.text ≡ answer_text (Answer.Acted task cred slot left) ++ out.old.text }
    ensures room { out.old.room ≤ out.new.room + ANSWER }
{
    prepend_number(out, " left ", left);
    prepend_sealed(out, " c", cred, slot);
    prepend_number(out, "ok t", task)
}

/// Writes the answer to a commit on another base than the task's current credential.
fn prepend_stale(out: &mut Pen, base: u64, now: u64)
    requires { ANSWER ≤ out.old.room }
    ensures text { out.new.text ≡ answer_text (Answer.Stale base now) ++ out.old.text }
    ensures room { out.old.room ≤ out.new.room + ANSWER }
{
    prepend_long(out, " c", now);
    prepend_long(out, "stale c", base)
}

/// Writes the answer of a thread that could not follow a broadcast.
fn prepend_aborted(out: &mut Pen, task: u32, cause: AbortCause)
    requires { ANSWER ≤ out.old.room }
    ensures text { out.new.text ≡ answer_text (Answer.Aborted task cause) ++ out.old.text }
    ensures room { out.old.room ≤ out.new.room + ANSWER }
{
    prepend_word(out, cause_word(cause));
    prepend_number(out, "aborted t", task)
}

/// Writes the answer.
///
/// # Errors
///
/// `NoMemory` where the buffer cannot grow. Nothing is said of what it holds then.
// Called at one place alone, for each entry.
#[inline(always)]
pub(crate) fn prepend_answer(out: &mut Pen, answer: &Answer) -> Result<(), NoMemory>
    requires { BEFORE_ANSWER + ANSWER ≤ out.old.room }
    ensures text { OnOk result (out.new.text ≡ answer_text answer.now ++ out.old.text) }
    ensures room { OnOk result (BEFORE_ANSWER ≤ out.new.room) }
{
    match answer {
        Answer::Done => prepend_word(out, "ok"),
        Answer::Sealed { cred, slot } => prepend_sealed(out, "ok c", *cred, *slot),
        Answer::Kept { slot } => prepend_kept(out, *slot),
        Answer::Was { previous } => prepend_number(out, "ok was ", previous.number()),
        Answer::Executed {
            cred,
            slot,
            ended,
            gains,
        } => prepend_executed(out, *cred, *slot, *ended, *gains),
        Answer::Began { cred, slot, left } => prepend_began(out, *cred, *slot, *left),
        Answer::Acted {
            task,
            cred,
            slot,
            left,
        } => prepend_acted(out, *task, *cred, *slot, *left),
        Answer::Told(told) => prepend_told(out, told)?,
        Answer::Eperm => prepend_word(out, "eperm"),
        Answer::Einval => prepend_word(out, "einval"),
        Answer::Eacces => prepend_word(out, "eacces"),
        Answer::Ebadf => prepend_word(out, "ebadf"),
        Answer::NoTask(task) => prepend_number(out, "no task t", *task),
        Answer::NoHold(label) => prepend_number(out, "no hold h", *label),
        Answer::NoPrepared(label) => prepend_number(out, "no prepared h", *label),
        Answer::NoBroadcast(broadcast) => prepend_number(out, "no broadcast ", *broadcast),
        Answer::Busy(broadcast) => prepend_number(out, "busy ", *broadcast),
        Answer::Exists { what, number } => prepend_number(out, exists_word(*what), *number),
        Answer::Overridden(depth) => prepend_number(out, "overridden ", *depth),
        Answer::NotOverridden => prepend_word(out, "not overridden"),
        Answer::TooDeep => prepend_word(out, "too deep"),
        Answer::Stale { base, now } => prepend_stale(out, *base, *now),
        Answer::TooMany(counted) => prepend_word(out, too_many_words(*counted)),
        Answer::TableFull => prepend_word(out, "table full"),
        Answer::Aborted { task, cause } => prepend_aborted(out, *task, *cause),
    }
    Ok(())
}
