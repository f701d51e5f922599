// The program `intermit`: the host's files and streams, and the top call on them.
#![tactic(auto)]

use im_cmd::top;
use im_io::{HostShelf, HostSink, Sink, send};
use std::alloc::AllocError;
use std::process::ExitCode;
use std::{env, fs, io};

/// The exit status of words that aren't text.
const USAGE: u8 = 2;

/// The exit status where memory ran out.
const STARVED: u8 = 9;

/// What stands in the place of a stream that is closed. It is opened to be read, so nothing that is
/// sent there is taken.
const NOTHING: &str = "/dev/null";

fn main(rt: HostRuntime) -> ExitCode {
    // An open file gets the lowest descriptor that is free: behind these none is a stream's.
    let _input = fs::open(&rt, NOTHING);
    let _output = fs::open(&rt, NOTHING);
    let _errors = fs::open(&rt, NOTHING);
    let mut err = HostSink::new(rt.stderr());
    let words = match env::args(&rt) {
        Ok(words) => words,
        Err(fault) => return refuse(&mut err, &fault),
    };
    let collected: Result<Vec<String>, AllocError> = words.collect(rt.alloc());
    let Ok(words) = collected else {
        return starve(&mut err);
    };
    let mut shelf = HostShelf::new(&rt);
    let mut out = HostSink::new(rt.stdout());
    ExitCode::from(top(rt.alloc(), words.as_slice(), &mut shelf, &mut out, &mut err))
}

fn refuse<E: Sink>(err: &mut E, fault: &io::Error) -> ExitCode {
    if fault.kind() == io::ErrorKind::OutOfMemory {
        return starve(err);
    }
    let _ = send(err, b"intermit: a word isn't UTF-8\n");
    ExitCode::from(USAGE)
}

fn starve<E: Sink>(err: &mut E) -> ExitCode {
    let _ = send(err, b"intermit: no memory\n");
    ExitCode::from(STARVED)
}
