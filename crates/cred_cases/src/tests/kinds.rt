//! Sources and sinks over std's streams, at each kind of error: each is a fault, whatever its kind,
//! and each call makes one call below.
use cred_io::{Failed, Sink, SinkRefusal, Source, StdSink, StdSource};
use std::io;
use std::io::{ErrorKind, Read, Write};

/// Every kind of error that std has.
const KINDS: [ErrorKind; 42] = [
    ErrorKind::NotFound,
    ErrorKind::PermissionDenied,
    ErrorKind::ConnectionRefused,
    ErrorKind::ConnectionReset,
    ErrorKind::HostUnreachable,
    ErrorKind::NetworkUnreachable,
    ErrorKind::ConnectionAborted,
    ErrorKind::NotConnected,
    ErrorKind::AddrInUse,
    ErrorKind::AddrNotAvailable,
    ErrorKind::NetworkDown,
    ErrorKind::BrokenPipe,
    ErrorKind::AlreadyExists,
    ErrorKind::WouldBlock,
    ErrorKind::NotADirectory,
    ErrorKind::IsADirectory,
    ErrorKind::DirectoryNotEmpty,
    ErrorKind::ReadOnlyFilesystem,
    ErrorKind::FilesystemLoop,
    ErrorKind::StaleNetworkFileHandle,
    ErrorKind::InvalidInput,
    ErrorKind::InvalidData,
    ErrorKind::TimedOut,
    ErrorKind::WriteZero,
    ErrorKind::StorageFull,
    ErrorKind::NotSeekable,
    ErrorKind::QuotaExceeded,
    ErrorKind::FileTooLarge,
    ErrorKind::ResourceBusy,
    ErrorKind::ExecutableFileBusy,
    ErrorKind::Deadlock,
    ErrorKind::CrossesDevices,
    ErrorKind::TooManyLinks,
    ErrorKind::InvalidFilename,
    ErrorKind::ArgumentListTooLong,
    ErrorKind::Interrupted,
    ErrorKind::Unsupported,
    ErrorKind::UnexpectedEof,
    ErrorKind::OutOfMemory,
    ErrorKind::InProgress,
    ErrorKind::Other,
    ErrorKind::Uncategorized,
];

/// A stream that counts its calls, of which one fails.
#[derive(Drop)]
struct FailsOnce {
    kind: ErrorKind,
    failing: u32,
    calls: u32,
}

impl FailsOnce {
    /// A stream that has not been called, and whose call of this number fails so. The first is 1.
    fn at(failing: u32, kind: ErrorKind) -> FailsOnce {
        FailsOnce {
            kind,
            failing,
            calls: 0,
        }
    }

    /// Counts a call, and fails if it is the one.
    fn call(&mut self) -> io::Result<()> {
        self.calls = self.calls.saturating_add(1);
        if self.calls == self.failing {
            return Err(io::Error::from(self.kind));
        }
        Ok(())
    }
}

impl Read for FailsOnce {
    fn read(&mut self, _buf: &mut [u8]) -> io::Result<usize> {
        self.call()?;
        Ok(0)
    }
}

impl Write for FailsOnce {
    fn write(&mut self, buf: &[u8]) -> io::Result<usize> {
        self.call()?;
        Ok(buf.len())
    }

    fn flush(&mut self) -> io::Result<()> {
        self.call()
    }
}

/// What comes of two reads, and how many the reader below has seen.
fn reads(failing: u32, kind: ErrorKind) -> ([Result<usize, Failed>; 2], u32) {
    let mut below = FailsOnce::at(failing, kind);
    let mut source = StdSource::new(&mut below);
    let mut buf = [0; 3];
    let reads = [source.read(&mut buf), source.read(&mut buf)];
    (reads, below.calls)
}

/// What comes of two writes, of a flush that follows and of another, and how many calls the writer
/// below has seen.
fn writes(failing: u32, kind: ErrorKind) -> ([Result<(), SinkRefusal>; 4], u32) {
    let mut below = FailsOnce::at(failing, kind);
    let mut sink = StdSink::new(&mut below);
    let calls = [
        sink.write(b"x").map(|_| ()),
        sink.write(b"y").map(|_| ()),
        sink.flush(),
        sink.flush(),
    ];
    (calls, below.calls)
}

/// What comes of two reads, of which one fails.
const READS: [(u32, [Result<usize, Failed>; 2]); 2] = [
    (1, [Err(Failed), Ok(0)]),
    (2, [Ok(0), Err(Failed)]),
];

/// A call that a writer below has failed.
const FAILED: Result<(), SinkRefusal> = Err(SinkRefusal::Failed);

/// What comes of two writes and two flushes, of which one fails.
const WRITES: [(u32, [Result<(), SinkRefusal>; 4]); 4] = [
    (1, [FAILED, Ok(()), Ok(()), Ok(())]),
    (2, [Ok(()), FAILED, Ok(()), Ok(())]),
    (3, [Ok(()), Ok(()), FAILED, Ok(())]),
    (4, [Ok(()), Ok(()), Ok(()), FAILED]),
];

#[test]
fn each_kind_of_read_error_is_a_fault(rt: HostRuntime) {
    for kind in KINDS {
        for (failing, due) in READS {
            assert!(rt;
                reads(failing, kind) == (due, 2),
                "{kind:?} at read {failing}"
            );
        }
    }
}

#[test]
fn each_kind_of_write_error_is_a_fault(rt: HostRuntime) {
    for kind in KINDS {
        for (failing, due) in WRITES {
            assert!(rt;
                writes(failing, kind) == (due, 4),
                "{kind:?} at call {failing}"
            );
        }
    }
}
