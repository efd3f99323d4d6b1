//! Sources and sinks: limits of a read, and calls that fail in mid-stream.
use cred_ids::NoMemory;
use cred_io::{
    Bytes, Failed, MemorySink, MemorySource, ReadRefusal, Sink, SinkRefusal, Source, StdSink,
    StdSource, SureSink, SureSource, read_all, write_all,
};
use std::alloc::Global;
use std::io;
use std::io::{Read, Write};
use std::test::Fail;

/// The largest script, in bytes.
const MEBIBYTE: u32 = 1_048_576;

#[test]
fn bytes_keep_their_items(rt: HostRuntime) -> Result<(), Fail> {
    let copied = Bytes::of(rt.alloc(), b"cap")?;
    assert!(rt; copied.items() == b"cap".as_slice());
    let again = Bytes::from_vec(copied.into_vec());
    assert!(rt; again.items() == b"cap".as_slice());
    Ok(())
}

/// Whether the bytes that were read are these.
fn is_whole(read: Result<Bytes, ReadRefusal>, bytes: &[u8]) -> Result<bool, ReadRefusal> {
    Ok(read?.items() == bytes)
}

/// How many bytes there are, the limit, and whether they are within it.
const LIMITS: [(u32, u32, bool); 7] = [
    (0, 0, true),
    (1, 0, false),
    (3, 3, true),
    (4, 3, false),
    (MEBIBYTE, MEBIBYTE, true),
    (MEBIBYTE + 1, MEBIBYTE, false),
    (9, u32::MAX, true),
];

/// What comes of reading so many bytes up to a limit, from memory and over a reader of std.
fn both_read(
    alloc: Global,
    len: u32,
    limit: u32,
) -> Result<[Result<bool, ReadRefusal>; 2], NoMemory> {
    let bytes = vec![in alloc; b'#'; len as usize]?;
    let mut sure = SureSource::of(alloc, &bytes)?;
    let mut standard = StdSource::new(bytes.as_slice());
    Ok([
        is_whole(read_all(alloc, &mut sure, limit), &bytes),
        is_whole(read_all(alloc, &mut standard, limit), &bytes),
    ])
}

#[test]
fn reads_to_the_limit_and_not_past_it(rt: HostRuntime) -> Result<(), Fail> {
    for (len, limit, fits) in LIMITS {
        let want = if fits {
            Ok(true)
        } else {
            Err(ReadRefusal::TooLarge)
        };
        let reads = both_read(rt.alloc(), len, limit)?;
        assert!(rt; reads == [want, want], "{len} bytes, limit {limit}");
    }
    Ok(())
}

/// Reads three of the bytes, and then twice the rest, while one of the reads fails. Returns whether
/// the three were read, and what came of the others.
fn three_and_rest(
    alloc: Global,
    failing: u64,
    rest: &[u8],
) -> Result<(bool, [Result<bool, ReadRefusal>; 2]), NoMemory> {
    let mut source = MemorySource::of(alloc, b"abcdefgh", &[failing])?;
    let mut buf = [0; 3];
    let count = source.read(&mut buf);
    let faulty = is_whole(read_all(alloc, &mut source, 100), rest);
    let left = is_whole(read_all(alloc, &mut source, 100), rest);
    Ok(((count, buf) == (Ok(3), *b"abc"), [faulty, left]))
}

#[test]
fn a_read_that_fails_in_mid_stream_leaves_the_rest(rt: HostRuntime) -> Result<(), Fail> {
    let want = (true, [Err(ReadRefusal::Fault), Ok(true)]);
    // The second read finds bytes, and the third would find the end.
    for (failing, rest) in [(2, b"defgh".as_slice()), (3, b"".as_slice())] {
        let read = three_and_rest(rt.alloc(), failing, rest)?;
        assert!(rt; read == want, "read {failing} fails");
    }
    Ok(())
}

/// Whether one of three pieces is refused, each written if none before it was. The sink is flushed
/// after each.
fn are_refused(sink: &mut MemorySink) -> Result<bool, SinkRefusal> {
    let mut refusal = None;
    for piece in [b"ab".as_slice(), b"cd".as_slice(), b"ef".as_slice()] {
        if refusal.is_none() {
            refusal = write_all(sink, piece).err();
        }
        sink.flush()?;
    }
    Ok(refusal.is_some())
}

/// Whether a piece is refused while this write fails, and whether this is what the sink has then.
fn of_failing(
    alloc: Global,
    failing: u64,
    prefix: &[u8],
) -> Result<(Result<bool, SinkRefusal>, bool), NoMemory> {
    let mut sink = MemorySink::of(alloc, &[failing])?;
    let are_refused = are_refused(&mut sink);
    Ok((are_refused, sink.bytes() == prefix))
}

#[test]
fn a_write_that_fails_leaves_a_prefix(rt: HostRuntime) -> Result<(), Fail> {
    let table = [
        (1, b"".as_slice()),
        (2, b"ab".as_slice()),
        (3, b"abcd".as_slice()),
        (4, b"abcdef".as_slice()),
    ];
    for (failing, prefix) in table {
        let got = of_failing(rt.alloc(), failing, prefix)?;
        assert!(rt; got == (Ok(failing < 4), true), "write {failing} fails");
    }
    Ok(())
}

#[test]
fn writes_to_sure_sinks(rt: HostRuntime) {
    let mut sink = SureSink::new(rt.alloc());
    let first = write_all(&mut sink, b"1 init");
    let second = write_all(&mut sink, b" -> ok");
    assert!(rt; [first, second, sink.flush()] == [Ok(()); 3]);
    assert!(rt; sink.bytes() == b"1 init -> ok".as_slice());
}

#[test]
fn writes_to_writers(rt: HostRuntime) {
    let mut written = Vec::new(rt.alloc());
    let mut standard = StdSink::new(&mut written);
    let whole = write_all(&mut standard, b"1 init -> ok");
    assert!(rt; [whole, standard.flush()] == [Ok(()); 2]);
    assert!(rt; written.as_slice() == b"1 init -> ok".as_slice());
}

/// A writer into a buffer of 3 bytes takes nothing once that is full.
#[test]
fn a_full_buffer_is_a_failed_write(rt: HostRuntime) {
    let mut room = [0; 3];
    let mut full = StdSink::new(&mut room[..]);
    let refused = write_all(&mut full, b"abcde");
    assert!(rt; (refused, room) == (Err(SinkRefusal::Failed), *b"abc"));
}

/// A stream that only fails.
#[derive(Drop)]
struct Broken;

impl Read for Broken {
    fn read(&mut self, _buf: &mut [u8]) -> io::Result<usize> {
        Err(io::Error::from(io::ErrorKind::BrokenPipe))
    }
}

impl Write for Broken {
    fn write(&mut self, _buf: &[u8]) -> io::Result<usize> {
        Err(io::Error::from(io::ErrorKind::BrokenPipe))
    }

    fn flush(&mut self) -> io::Result<()> {
        Err(io::Error::from(io::ErrorKind::BrokenPipe))
    }
}

#[test]
fn errors_of_std_are_faults(rt: HostRuntime) {
    let mut source = StdSource::new(Broken);
    let mut buf = [0; 3];
    let first = source.read(&mut buf);
    let all = read_all(rt.alloc(), &mut source, 100).err();
    assert!(rt; (first, all) == (Err(Failed), Some(ReadRefusal::Fault)));
    let mut sink = StdSink::new(Broken);
    let written = write_all(&mut sink, b"x");
    assert!(rt; [written, sink.flush()] == [Err(SinkRefusal::Failed); 2]);
}
