use crate::example::Example;
use im_cmd::top;
use im_io::{HostShelf, MemSink};
use std::alloc::Global;
use std::{fs, io};

/// Room for what an evaluation prints, in bytes.
const ROOM: usize = 65536;

fn words_of(alloc: Global, example: &Example) -> io::Result<Vec<String>> {
    let words = [
        "intermit",
        "eval",
        example.source,
        "--input",
        example.input,
        "--fuel",
        "10000000",
    ];
    let mut copies = Vec::new(alloc);
    for word in words {
        copies.push(String::from_str(alloc, word)?)?;
    }
    Ok(copies)
}

fn sink(alloc: Global) -> io::Result<MemSink> {
    match MemSink::new(alloc, ROOM, &[]) {
        Ok(sink) => Ok(sink),
        Err(_) => Err(io::Error::from(io::ErrorKind::OutOfMemory)),
    }
}

/// Whether what `intermit eval` prints is the output that the example should have.
pub(crate) fn is_right(rt: &HostRuntime, example: &Example) -> io::Result<bool> {
    let alloc = rt.alloc();
    let expected = fs::read(rt, example.output)?;
    let words = words_of(alloc, example)?;
    let mut shelf = HostShelf::new(rt);
    let mut out = sink(alloc)?;
    let mut err = sink(alloc)?;
    let status = top(alloc, &words, &mut shelf, &mut out, &mut err);
    Ok(status == 0 && out.contents() == expected.as_slice())
}
