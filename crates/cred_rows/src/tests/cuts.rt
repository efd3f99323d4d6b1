//! What is left of the report of a run by threads where a write fails, and one write moves one
//! byte, seven, or all that it is asked to.
use crate::tests::faults::PIECES;
use crate::tests::runs::{Given, end_of};
use cred_ids::NoMemory;
use cred_io::MemorySink;
use cred_program::Status;
use std::alloc::Global;
use std::sync::Wait;
use std::test::Fail;
use std::thread::Threads;

/// Three tasks on a lane each, whose report has 16 entries however the lanes take turns; and a task
/// that executes a program beside a thread of its process, which then may never come to its call.
const SCRIPTS: [&str; 2] = [
    "init t1 p1 0 0 n0\ninit t2 p2 0 0 n0\ninit t3 p3 0 0 n0\n\
    lane 1\nt1 setresuid 1 1 1\nt1 caps\nlane 2\nt2 setresuid 2 2 2\nt2 ids\n\
    lane 3\nt3 keepcaps 1\n",
    "file prog reg 0 0 0755\ninit t1 p1 0 0 n0\nt1 spawn t2\n\
    lane 1\nt1 open prog r f1\nt1 exec prog\nlane 2\nt2 setresuid 5 5 5\nt2 ids\n",
];

/// More writes than any of these reports takes.
const WRITES: u64 = 2_000;

/// An input of `audit`: the script and a report.
fn input_of(alloc: Global, script: &str, report: &[u8]) -> Result<Vec<u8>, NoMemory> {
    let mut input = script.as_bytes().to_vec(alloc)?;
    input.extend_from_slice(b"report\n")?;
    input.extend_from_slice(report)?;
    Ok(input)
}

/// Writes what `audit` says of the report.
fn audit<R: AllocGlobal + Threads + Wait + Sync>(
    rt: &R,
    script: &str,
    report: &[u8],
    sink: &mut MemorySink,
) -> Result<Status, NoMemory> {
    let input = input_of(rt.alloc(), script, report)?;
    let end = end_of(rt, &["audit"], &Given::whole(&input), sink);
    drop(input);
    end
}

/// What `audit` says where the report ends after so many of its entries.
fn said_of_cut(alloc: Global, entries: usize) -> Result<String, NoMemory> {
    let next = entries.saturating_add(1);
    Ok(format!(in alloc; "not legal {next}\n")?)
}

/// Whether `audit` finds the report legal; or, where it is not whole, legal as far as it goes.
fn is_legal_so_far<R: AllocGlobal + Threads + Wait + Sync>(
    rt: &R,
    script: &str,
    report: &[u8],
    is_whole: bool,
) -> Result<bool, NoMemory> {
    let entries = report.iter().filter(|byte| **byte == b'\n').count();
    let cut = said_of_cut(rt.alloc(), entries)?;
    let said = if is_whole { "legal\n" } else { cut.as_str() };
    let is_said = is_said_of(rt, script, report, said);
    drop(cut);
    is_said
}

/// Whether `audit` says this of the report.
pub(crate) fn is_said_of<R: AllocGlobal + Threads + Wait + Sync>(
    rt: &R,
    script: &str,
    report: &[u8],
    said: &str,
) -> Result<bool, NoMemory> {
    let mut sink = MemorySink::of(rt.alloc(), &[])?;
    let end = audit(rt, script, report, &mut sink);
    let is_said = sink.bytes() == said.as_bytes();
    drop(sink);
    end?;
    Ok(is_said)
}

/// How `lanes` ends where the write of this number fails, if what it has written is legal as far as
/// it goes.
fn end_at<R: AllocGlobal + Threads + Wait + Sync>(
    rt: &R,
    script: &str,
    piece: usize,
    write: u64,
) -> Result<Option<Status>, NoMemory> {
    let mut sink = MemorySink::of(rt.alloc(), &[write])?.with_piece(piece.max(1));
    let end = end_of(rt, &["lanes"], &Given::whole(script.as_bytes()), &mut sink);
    let is_legal = is_legal_so_far(rt, script, sink.bytes(), end == Ok(Status::Done));
    drop(sink);
    let end = end?;
    Ok(is_legal?.then_some(end))
}

/// The first write after whose failure it goes otherwise. No write comes after the report.
fn first_other<R: AllocGlobal + Threads + Wait + Sync>(
    rt: &R,
    script: &str,
    piece: usize,
) -> Result<Option<u64>, NoMemory> {
    for write in 1..=WRITES {
        match end_at(rt, script, piece, write)? {
            Some(Status::WriteFault) => {}
            Some(Status::Done) if write > 1 => return Ok(None),
            _ => return Ok(Some(write)),
        }
    }
    Ok(Some(WRITES))
}

#[test]
fn a_failed_write_leaves_what_may_go_on(rt: HostRuntime) -> Result<(), Fail> {
    for (row, script) in SCRIPTS.iter().enumerate() {
        for piece in PIECES {
            let other = first_other(&rt, script, piece)?;
            assert!(rt;
                other.is_none(),
                "script {row}, pieces of {piece}: write {other:?}"
            );
        }
    }
    Ok(())
}
