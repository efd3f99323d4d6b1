//! Runs, audits and makes trace scripts of Linux task credentials.
#![tactic(auto)]

use cred_ids::NoMemory;
use cred_io::{StdSink, StdSource};
use cred_program::{NoGate, exit_code};
use std::io::ErrorKind;
use std::process::ExitCode;
use std::rt::Runtime;
use std::{env, io};

/// The words after the program's name. Words that are not all UTF-8 are no command: they count as
/// none.
fn words<R: Runtime + AllocGlobal>(rt: &R) -> Result<Vec<String>, NoMemory> {
    match env::args(rt) {
        Ok(args) => Ok(args.skip(1).collect(rt.alloc())?),
        Err(e) if e.kind() == ErrorKind::OutOfMemory => Err(NoMemory),
        Err(_) => Ok(Vec::new(rt.alloc())),
    }
}

fn main(rt: HostRuntime) -> ExitCode {
    let words = words(&rt);
    let mut source = StdSource::new(rt.reader());
    let mut sink = StdSink::new(io::writer(&rt));
    let code = exit_code(&rt, rt.alloc(), &words, &mut source, &mut sink, &NoGate);
    ExitCode::from(code)
}
