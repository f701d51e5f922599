use super::files::File;
use im_cmd::top;
use im_io::{MemShelf, MemSink};
use std::alloc::{AllocError, Global};
use std::io;

/// More bytes than any command here sends to a stream.
const ROOM: usize = 65536;

/// Where a call fails.
#[derive(Clone, Copy)]
pub(super) enum Outside {
    Files,
    Out,
    Err,
}

impl Outside {
    pub(super) fn name(self) -> &'static str {
        match self {
            Outside::Files => "files",
            Outside::Out => "out",
            Outside::Err => "err",
        }
    }
}

/// The number of the call that fails, counted from 1, or 0 for none.
#[derive(Clone, Copy)]
pub(super) struct Failing {
    files: u64,
    out: u64,
    err: u64,
}

impl Failing {
    pub(super) fn nothing() -> Failing {
        Failing {
            files: 0,
            out: 0,
            err: 0,
        }
    }

    pub(super) fn call(outside: Outside, number: u64) -> Failing {
        let mut failing = Failing::nothing();
        match outside {
            Outside::Files => failing.files = number,
            Outside::Out => failing.out = number,
            Outside::Err => failing.err = number,
        }
        failing
    }
}

/// What came of a command.
#[derive(Drop)]
pub(super) struct Outcome {
    pub(super) status: u8,
    pub(super) shelf: MemShelf,
    pub(super) out: MemSink,
    pub(super) err: MemSink,
}

impl Outcome {
    pub(super) fn is_without_fault(&self) -> bool {
        let read = self.shelf.read_faults() == 0;
        let written = self.shelf.write_faults() == 0;
        read && written && self.out.faults() == 0 && self.err.faults() == 0
    }
}

fn words_of(alloc: Global, command: &str) -> Result<Vec<String>, AllocError> {
    let mut words = Vec::new(alloc);
    words.push(String::from_str(alloc, "intermit")?)?;
    for word in command.split(' ') {
        words.push(String::from_str(alloc, word)?)?;
    }
    Ok(words)
}

fn no_memory() -> io::Error {
    io::Error::from(io::ErrorKind::OutOfMemory)
}

fn shelf_of(alloc: Global, files: &[File], failing: u64) -> io::Result<MemShelf> {
    MemShelf::new(alloc, files, &[failing]).map_err(|_| no_memory())
}

fn sink_of(alloc: Global, failing: u64) -> io::Result<MemSink> {
    MemSink::new(alloc, ROOM, &[failing]).map_err(|_| no_memory())
}

/// Carries out a command over these files.
pub(super) fn carry_out(
    alloc: Global,
    files: &[File],
    command: &str,
    failing: Failing,
) -> io::Result<Outcome> {
    let words = words_of(alloc, command)?;
    let mut shelf = shelf_of(alloc, files, failing.files)?;
    let mut out = sink_of(alloc, failing.out)?;
    let mut err = sink_of(alloc, failing.err)?;
    let status = top(alloc, &words, &mut shelf, &mut out, &mut err);
    Ok(Outcome {
        status,
        shelf,
        out,
        err,
    })
}
