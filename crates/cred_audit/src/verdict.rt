//! The verdict on a report.
ghost use Rattle.std.specs.Prelude.{◌≡◌, ◌≢◌, ◌++◌, [], IfOk, MatchOption, List, ℕ};
ghost use Rattle.cred_report.specs.Text.{entry_text};
ghost use Rattle.cred_audit.specs.Report.{IsVerdict};
ghost use Rattle.cred_audit.specs.Run.{GoesWrong, IsRunAfter, IsRun, ReadsEntry};

use crate::lane::lane_at;
use crate::run::Run;
use cred_event::Entry;
use cred_ids::NoMemory;
use cred_report::{Pen, prepend};
use cred_script::Script;
use std::alloc::Global;

/// Whether a report is its script's.
#[derive(Clone, Copy, PartialEq, Eq, Debug)]
pub enum Verdict {
    /// It is the text of a legal journal of the script.
    Legal,
    /// It is not.
    NotLegal {
        /// The first entry that is wrong or missing, counted from 1.
        entry: u64,
    },
}

/// Whether the bytes are the report of a run of the script, and if not, which entry is the first
/// that is wrong. A script with lanes has many such reports: each that keeps the order of every
/// lane.
///
/// # Errors
///
/// `NoMemory` if an allocation of the run or of an entry's text fails.
pub fn audit(alloc: Global, script: &Script, report: &[u8]) -> Result<Verdict, NoMemory>
    ensures { IfOk result (λ verdict. IsVerdict script.now report.now verdict) }
{
    let mut run = Run::new(alloc, script)?;
    let mut pen = Pen::new(alloc);
    compare(&mut run, &mut pen, script, report)
}

/// The verdict on a report, by a run of the script that has made no event yet.
fn compare(
    run: &mut Run,
    pen: &mut Pen,
    script: &Script,
    report: &[u8],
) -> Result<Verdict, NoMemory>
    requires { IsRunAfter script.now [] run.old }
    ensures { IfOk result (λ verdict. IsVerdict script.now report.now verdict) }
{
    let mut rest = report;
    let mut entry = 1;
    'entries: while !rest.is_empty() {
        let Some(after) = rest_after_next(run, pen, script, rest)? else {
            return Ok(Verdict::NotLegal { entry });
        };
        rest = after;
        entry += 1;
    }
    Ok(if run.has_ended() {
        Verdict::Legal
    } else {
        Verdict::NotLegal { entry }
    })
}

/// Makes the next event of the lane whose line's number the bytes begin with, and returns what
/// follows the text of its entry; none where the bytes do not begin with it.
fn rest_after_next<'b>(
    run: &mut Run,
    pen: &mut Pen,
    script: &Script,
    bytes: &'b [u8],
) -> Result<Option<&'b [u8]>, NoMemory>
    requires { IsRun script.now run.old }
    ensures { IfOk result (λ found. MatchOption found (GoesWrong script.now run.old bytes.now)
        (λ rest. ReadsEntry script.now run.old run.new bytes.now rest.now)) }
{
    let Some(lane) = lane_at(script, bytes) else {
        return Ok(None);
    };
    let Some(next) = run.next(script, lane)? else {
        return Ok(None);
    };
    rest_after(pen, script, bytes, &next)
}

/// What follows the text of the entry, with which the bytes are to begin; none where they do not.
fn rest_after<'b>(
    pen: &mut Pen,
    script: &Script,
    bytes: &'b [u8],
    entry: &Entry,
) -> Result<Option<&'b [u8]>, NoMemory>
    ensures { IfOk result (λ found. MatchOption found
        ((rest : List ℕ) → bytes.now ≢ entry_text script.now entry.now ++ rest)
        (λ rest. bytes.now ≡ entry_text script.now entry.now ++ rest.now)) }
{
    pen.clear();
    prepend(pen, script, entry)?;
    Ok(bytes.strip_prefix(pen.items()))
}
