//! How the program ends where the flush of its output fails.
use crate::tests::runs::{Given, end_of};
use cred_ids::NoMemory;
use cred_io::StdSink;
use cred_program::Status;
use std::io;
use std::io::Write;
use std::sync::Wait;
use std::test::Fail;
use std::thread::Threads;

const SCRIPT: &str = "init t1 p1 0 0 n0\nt1 setresuid 1000 1000 1000\nt1 caps\nt1 ids\n";

/// A writer over a full disk: it takes all, and fails at the flush.
#[derive(Drop)]
struct FullDisk;

impl Write for FullDisk {
    fn write(&mut self, buf: &[u8]) -> io::Result<usize> {
        Ok(buf.len())
    }

    fn flush(&mut self) -> io::Result<()> {
        Err(io::Error::from(io::ErrorKind::StorageFull))
    }
}

/// A report, an empty one, both verdicts, a summary, the line of an attribute, of a text and of a
/// record, the reason why a word is none, and the usage line.
const TEXTS: [(&[&str], &str); 13] = [
    (&["run"], SCRIPT),
    (&["run"], ""),
    (&["lanes"], SCRIPT),
    (&["audit"], "report\n"),
    (&["audit"], "report\nx\n"),
    (&["gen", "1"], ""),
    (&["decode", "0100000200200000000000000000000000000000"], ""),
    (&["decode", "0100"], ""),
    (&["encode", "cap_net_raw=ep"], ""),
    (&["encode", "cap_net_raw"], ""),
    (&["capdata", "3003981900000000000400000004000000000000"], ""),
    (&["capdata", "0000000000000000"], ""),
    (&["frob"], ""),
];

/// The place of the first text that ends otherwise over a full disk.
fn first_taken<R: AllocGlobal + Threads + Wait + Sync>(rt: &R) -> Result<Option<usize>, NoMemory> {
    for (place, (texts, input)) in TEXTS.iter().enumerate() {
        let mut sink = StdSink::new(FullDisk);
        let end = end_of(rt, texts, &Given::whole(input.as_bytes()), &mut sink);
        drop(sink);
        if end? != Status::WriteFault {
            return Ok(Some(place));
        }
    }
    Ok(None)
}

#[test]
fn a_text_that_is_not_flushed_is_a_write_fault(rt: HostRuntime) -> Result<(), Fail> {
    let taken = first_taken(&rt)?;
    assert!(rt; taken.is_none(), "row {taken:?}");
    Ok(())
}
