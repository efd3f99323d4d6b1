//! Lanes that a gate holds at their decisions, until others stand at theirs. So they are seen to
//! run beside each other: lanes that run one after another can't meet.
use crate::tests::cuts::is_said_of;
use crate::tests::gate::{GateFault, StopGate};
use crate::tests::meetings::{MEETINGS, Meeting};
use crate::tests::runs::{Given, end_of_gated};
use cred_ids::NoMemory;
use cred_io::MemorySink;
use cred_program::Status;
use std::alloc::Global;
use std::fmt::Write;
use std::sync::Wait;
use std::test::Fail;
use std::thread::Threads;

/// The text of a meeting's script.
fn script_of(alloc: Global, meeting: &Meeting) -> Result<String, Fail> {
    let mut script = String::from_str(alloc, meeting.head)?;
    for label in 1..=meeting.pairs {
        writeln!(script, "take h{label} t1")?;
        script.push_str("t1 setresuid 0 0 0\n")?;
    }
    script.push_str(meeting.tail)?;
    Ok(script)
}

/// Whether the text has all these lines, one after another, with others between them or not.
fn has_lines(text: &[u8], lines: &[&str]) -> bool {
    let mut left = lines.iter();
    let mut wanted = left.next();
    for line in text.split(|byte| *byte == b'\n') {
        match wanted {
            Some(next) if line == next.as_bytes() => wanted = left.next(),
            _ => {}
        }
    }
    wanted.is_none()
}

/// Whether the event of this entry is of this kind, by its first word.
fn is_kind(entry: &[u8], kind: &str) -> bool {
    entry.split(|byte| *byte == b' ').nth(1) == Some(kind.as_bytes())
}

/// Whether each event of the first kind comes before each of the second.
fn are_apart(report: &[u8], kinds: (&str, &str)) -> bool {
    let (first, second) = kinds;
    let mut has_second = false;
    for entry in report.split(|byte| *byte == b'\n') {
        if has_second && is_kind(entry, first) {
            return false;
        }
        has_second = has_second || is_kind(entry, second);
    }
    true
}

/// What came of a meeting.
#[derive(Clone, Copy, PartialEq, Eq, Debug)]
enum Met {
    /// The report is legal and has the entries.
    Well,
    /// The run ended otherwise.
    Ended(Status),
    /// The lanes have not met at the gate.
    Not(GateFault),
    /// The list of entries of this place isn't in the report.
    Without(usize),
    /// An event of the first kind comes after one of the second.
    Mixed,
    /// The audit finds the report not legal.
    NotLegal,
}

/// Runs the lanes of a script, and looks at the report.
fn meet<R: AllocGlobal + Threads + Wait + Sync>(
    rt: &R,
    meeting: &Meeting,
    script: &str,
    gate: &StopGate<'_>,
) -> Result<Met, NoMemory> {
    let mut sink = MemorySink::of(rt.alloc(), &[])?;
    let end = end_of_gated(
        rt,
        &["lanes"],
        &Given::whole(script.as_bytes()),
        &mut sink,
        gate,
    );
    let met = match (end, gate.fault()) {
        (Ok(Status::Done), None) => judge(rt, meeting, script, sink.bytes()),
        (Ok(Status::Done), Some(fault)) => Ok(Met::Not(fault)),
        (Ok(status), _) => Ok(Met::Ended(status)),
        (Err(NoMemory), _) => Err(NoMemory),
    };
    drop(sink);
    met
}

/// What the report says of the meeting.
fn judge<R: AllocGlobal + Threads + Wait + Sync>(
    rt: &R,
    meeting: &Meeting,
    script: &str,
    report: &[u8],
) -> Result<Met, NoMemory> {
    if let Some(place) = meeting
        .entries
        .iter()
        .position(|lines| !has_lines(report, lines))
    {
        return Ok(Met::Without(place));
    }
    if !meeting.apart.is_none_or(|kinds| are_apart(report, kinds)) {
        return Ok(Met::Mixed);
    }
    if is_said_of(rt, script, report, "legal\n")? {
        Ok(Met::Well)
    } else {
        Ok(Met::NotLegal)
    }
}

/// The one owner of a meeting's script and gate.
fn meets<R: AllocGlobal + Threads + Wait + Sync>(rt: &R, meeting: &Meeting) -> Result<Met, Fail> {
    let script = script_of(rt.alloc(), meeting)?;
    let gate = StopGate::at(rt.alloc(), meeting.stops)?;
    let met = meet(rt, meeting, &script, &gate);
    drop(gate);
    drop(script);
    Ok(met?)
}

#[test]
fn lanes_meet_at_their_decisions(rt: HostRuntime) -> Result<(), Fail> {
    for meeting in &MEETINGS {
        let met = meets(&rt, meeting)?;
        assert!(rt; met == Met::Well, "{}: {met:?}", meeting.name);
    }
    Ok(())
}
