//! Each read and each write of a command fails in turn, where one call moves one byte, seven, or
//! all that it is asked to.
use crate::tests::runs::{Given, end_of};
use cred_ids::NoMemory;
use cred_io::MemorySink;
use cred_program::Status;
use std::alloc::Global;
use std::sync::Wait;
use std::test::Fail;
use std::thread::Threads;

/// A task that gives up its capabilities, and its report.
const SCRIPT: &str = "init t1 p1 0 0 n0\nt1 setresuid 1000 1000 1000\nt1 caps\nt1 ids\n";

const REPORT: &str = "1 init t1 p1 0 0 n0 -> ok c0 s0\n\
    2 begin t1 setresuid 1000 1000 1000 -> ok c1 s1 left 0\n\
    3 take h100030 t1 -> ok c1 s1\n\
    3 ask h100030 caps -> ok 0 0 0 1ffffffffff 0\n\
    3 drop h100030 -> ok\n\
    4 take h100040 t1 -> ok c1 s1\n\
    4 ask h100040 ids -> ok 1000 1000 1000 1000 0 0 0 0\n\
    4 drop h100040 -> ok\n";

/// The start of a service, and its report.
const SERVICE: &str = "file svc reg 0 0 0755\n\
    init t1 p1 0 0 n0\n\
    t1 keepcaps 1\n\
    t1 setgroups 30 10 20\n\
    t1 setresgid 500 500 500\n\
    t1 setresuid 500 500 500\n\
    t1 capset 400 400 400\n\
    t1 ambraise CAP_NET_BIND_SERVICE\n\
    t1 nonewprivs 1\n\
    t1 exec svc\n\
    t1 caps\n\
    t1 groups\n";

const SERVICE_REPORT: &str = "2 init t1 p1 0 0 n0 -> ok c0 s0\n\
    3 take h100030 t1 -> ok c0 s0\n\
    3 prepare h100031 t1 h100030 -> ok s1\n\
    3 change h100031 keepcaps 1 -> ok\n\
    3 commit h100031 -> ok c1 s1\n\
    3 drop h100030 -> ok\n\
    4 begin t1 setgroups 30 10 20 -> ok c2 s2 left 0\n\
    5 begin t1 setresgid 500 500 500 -> ok c3 s3 left 0\n\
    6 begin t1 setresuid 500 500 500 -> ok c4 s4 left 0\n\
    7 take h100070 t1 -> ok c4 s4\n\
    7 prepare h100071 t1 h100070 -> ok s5\n\
    7 change h100071 capset 400 400 400 -> ok\n\
    7 commit h100071 -> ok c5 s5\n\
    7 drop h100070 -> ok\n\
    8 take h100080 t1 -> ok c5 s5\n\
    8 prepare h100081 t1 h100080 -> ok s6\n\
    8 change h100081 ambraise 10 -> ok\n\
    8 commit h100081 -> ok c6 s6\n\
    8 drop h100080 -> ok\n\
    9 take h100090 t1 -> ok c6 s6\n\
    9 prepare h100091 t1 h100090 -> ok s7\n\
    9 change h100091 nonewprivs 1 -> ok\n\
    9 commit h100091 -> ok c7 s7\n\
    9 drop h100090 -> ok\n\
    10 take h100100 t1 -> ok c7 s7\n\
    10 prepare h100101 t1 h100100 -> ok s8\n\
    10 change h100101 exec svc -> ok\n\
    10 commit h100101 -> ok c8 s8 ended 0 gain 0 0 0\n\
    10 drop h100100 -> ok\n\
    11 take h100110 t1 -> ok c8 s8\n\
    11 ask h100110 caps -> ok 400 400 400 1ffffffffff 400\n\
    11 drop h100110 -> ok\n\
    12 take h100120 t1 -> ok c8 s8\n\
    12 ask h100120 groups -> ok 10 20 30\n\
    12 drop h100120 -> ok\n";

/// The words of a command line, whether the command reads, the parts of its input, what it writes
/// for that, and how it ends. Where one write moves all, each is a line; or, of a run in order, the
/// entries of a line of its script.
type CommandCase = (
    &'static [&'static str],
    bool,
    &'static [&'static str],
    &'static str,
    Status,
);

const CASES: [CommandCase; 14] = [
    (&["run"], true, &[SCRIPT], REPORT, Status::Done),
    (&["lanes"], true, &[SCRIPT], REPORT, Status::Done),
    (&["run"], true, &[SERVICE], SERVICE_REPORT, Status::Done),
    (&["lanes"], true, &[SERVICE], SERVICE_REPORT, Status::Done),
    (
        &["audit"],
        true,
        &[SCRIPT, "report\n", REPORT],
        "legal\n",
        Status::Done,
    ),
    (
        &["audit"],
        true,
        &[SCRIPT, "report\nx\n"],
        "not legal 1\n",
        Status::NotLegal,
    ),
    (
        &["run"],
        true,
        &[SCRIPT, "t1 setuid\n"],
        "bad 5 count\n",
        Status::Bad,
    ),
    (
        &["gen", "5"],
        false,
        &[SCRIPT],
        "lines 6 entries 20 credentials 4 refusals 1\n",
        Status::Done,
    ),
    (
        &["decode", "0100"],
        false,
        &[SCRIPT],
        "bad length 2\n",
        Status::Bad,
    ),
    (
        &["encode", "cap_net_raw=ep"],
        false,
        &[SCRIPT],
        "0100000200200000000000000000000000000000\n",
        Status::Done,
    ),
    (
        &["encode", "cap_chown=p cap_chown=e"],
        false,
        &[SCRIPT],
        "bad flags\n",
        Status::Bad,
    ),
    (
        &["capdata", "3003981900000000000400000004000000000000"],
        false,
        &[SCRIPT],
        "version 1 target 0 perm 400 inh 0 eff 400 v3 \
         2205082000000000000400000004000000000000000000000000000000000000\n",
        Status::Done,
    ),
    (
        &["capdata", "0000000000000000"],
        false,
        &[SCRIPT],
        "bad version 0\n",
        Status::Bad,
    ),
    (
        &["frob"],
        false,
        &[SCRIPT],
        "usage: credtrace run|lanes|audit|gen N|decode HEX|encode TEXT|capdata HEX\n",
        Status::Usage,
    ),
];

/// How many bytes one call moves at most.
pub(crate) const PIECES: [usize; 3] = [1, 7, usize::MAX];

/// The bytes of an input.
fn joined(alloc: Global, parts: &[&str]) -> Result<Vec<u8>, NoMemory> {
    let mut input = Vec::new(alloc);
    for part in parts {
        input.extend_from_slice(part.as_bytes())?;
    }
    Ok(input)
}

/// Where the writes of a text end that move all that they can: with a line of the text; or, of a
/// run in order, with the last entry of each line of its script.
fn ends(alloc: Global, text: &str, is_run: bool) -> Result<Vec<usize>, NoMemory> {
    let mut ends = Vec::new(alloc);
    let mut end = 0usize;
    let mut number = "";
    for entry in text.split_inclusive('\n') {
        let own = entry.split(' ').next().unwrap_or("");
        if !is_run || own != number {
            ends.push(end)?;
        }
        number = own;
        end = end.saturating_add(entry.len());
    }
    ends.push(end)?;
    Ok(ends)
}

/// How much of a text is written by no write, by one, by two and so on, where a write ends there,
/// or with a piece.
fn reaches(
    alloc: Global,
    text: &str,
    piece: usize,
    ends: &[usize],
) -> Result<Vec<usize>, NoMemory> {
    let mut reaches = vec![in alloc; 0]?;
    let mut moved = 0usize;
    for (_, reach) in text.as_bytes().iter().zip(1..) {
        moved = moved.saturating_add(1);
        if moved == piece || ends.contains(&reach) {
            reaches.push(reach)?;
            moved = 0;
        }
    }
    Ok(reaches)
}

/// Whether the program ends so where this read and this write fail, and so many bytes of its text
/// are written. There is no call 0.
fn ends_so<R: AllocGlobal + Threads + Wait + Sync>(
    rt: &R,
    case: &CommandCase,
    given: &Given<'_>,
    write: u64,
    (status, reach): (Status, usize),
) -> Result<bool, NoMemory> {
    let (words, _, _, text, _) = case;
    let mut sink = MemorySink::of(rt.alloc(), &[write])?.with_piece(given.piece.max(1));
    let end = end_of(rt, words, given, &mut sink);
    let is_reached = sink.bytes().len() == reach && text.as_bytes().starts_with(sink.bytes());
    drop(sink);
    Ok(end? == status && is_reached)
}

/// The first write after whose failure it goes otherwise, where the writes reach so far. The last
/// of these is of a write after the text.
fn other_write<R: AllocGlobal + Threads + Wait + Sync>(
    rt: &R,
    case: &CommandCase,
    given: &Given<'_>,
    reaches: &[usize],
) -> Result<Option<u64>, NoMemory> {
    let (_, _, _, text, whole) = case;
    for (write, reach) in (1..).zip(reaches) {
        let status = if *reach == text.len() {
            *whole
        } else {
            Status::WriteFault
        };
        if !ends_so(rt, case, given, write, (status, *reach))? {
            return Ok(Some(write));
        }
    }
    Ok(None)
}

/// How many reads the program makes of an input: one of each piece, and one that finds the end.
fn reads_of(case: &CommandCase, len: usize, piece: usize) -> u64 {
    let (_, is_read, _, _, _) = case;
    if *is_read {
        (len.div_ceil(piece.max(1)) as u64).saturating_add(1)
    } else {
        0
    }
}

/// The first read after whose failure it goes otherwise. One after the input changes nothing.
fn other_read<R: AllocGlobal + Threads + Wait + Sync>(
    rt: &R,
    case: &CommandCase,
    input: &[u8],
    piece: usize,
) -> Result<Option<u64>, NoMemory> {
    let (_, _, _, text, whole) = case;
    let reads = reads_of(case, input.len(), piece);
    for read in 1..=reads.saturating_add(1) {
        let due = if read <= reads {
            (Status::ReadFault, 0)
        } else {
            (*whole, text.len())
        };
        let given = Given {
            bytes: input,
            piece,
            failing: read,
        };
        if !ends_so(rt, case, &given, 0, due)? {
            return Ok(Some(read));
        }
    }
    Ok(None)
}

/// What goes otherwise of this input where one call moves so much: the read and the write.
fn others_of<R: AllocGlobal + Threads + Wait + Sync>(
    rt: &R,
    case: &CommandCase,
    input: &[u8],
    piece: usize,
) -> Result<[Option<u64>; 2], NoMemory> {
    let given = Given {
        bytes: input,
        piece,
        failing: 0,
    };
    let ends = ends(rt.alloc(), case.3, matches!(case.0, ["run"]))?;
    let reaches = reaches(rt.alloc(), case.3, piece, &ends)?;
    let write = other_write(rt, case, &given, &reaches);
    drop(reaches);
    Ok([other_read(rt, case, input, piece)?, write?])
}

/// The same of what is asked.
fn others<R: AllocGlobal + Threads + Wait + Sync>(
    rt: &R,
    case: &CommandCase,
    piece: usize,
) -> Result<[Option<u64>; 2], NoMemory> {
    let input = joined(rt.alloc(), case.2)?;
    let others = others_of(rt, case, &input, piece);
    drop(input);
    others
}

#[test]
fn a_fault_is_told_and_leaves_what_is_before(rt: HostRuntime) -> Result<(), Fail> {
    for (row, case) in CASES.iter().enumerate() {
        for piece in PIECES {
            let others = others(&rt, case, piece)?;
            assert!(rt;
                others == [None; 2],
                "row {row}, pieces of {piece}: {others:?}"
            );
        }
    }
    Ok(())
}
