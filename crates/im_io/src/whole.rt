ghost use Rattle.std.specs.Prelude.{◌≡◌, ◌≤◌, ◌<◌, length, IfOk, IfErr};
ghost use Rattle.std.specs.List.{flat_map};
ghost use Rattle.im_io.specs.Shelf.{WhereTold, WriteCounts, Reading};
ghost use Rattle.im_io.specs.Whole.{Sends, Stores, ReadWholeCounts, ReadsWhole, ReadsOpen, IsLimit};

use crate::fault::{Failed, OpenFault, ReadFault};
use crate::shelf::Shelf;
use crate::sink::Sink;
use std::alloc::Global;

// Bytes that one read asks for.
const CHUNK: usize = 64 * 1024;

/// Reads a whole file of at most `limit` bytes. It stops at the first byte over the limit.
pub fn read_whole<H: Shelf>(
    alloc: Global,
    shelf: &mut H,
    name: &str,
    limit: u64,
) -> Result<Vec<u8>, ReadFault>
    ensures counts { ReadWholeCounts result (H.state shelf.old) (H.state shelf.new) }
    ensures short { IfOk result (λ bytes. length bytes.items ≤ limit) }
    ensures limit { IfErr result (λ fault. IsLimit limit fault) }
    ensures told { WhereTold (H.state shelf.old).told (H.state shelf.new).told
        (ReadsWhole (λ bytes. bytes.items) name.now limit result) }
{
    let mut buffer = vec![in alloc; 0; CHUNK]?;
    match shelf.open_file(name) {
        Ok(()) => {}
        Err(OpenFault::Absent) => return Err(ReadFault::Absent),
        Err(OpenFault::Failed) => return Err(ReadFault::Fault),
    }
    read_open(alloc, shelf, buffer.as_mut_slice(), limit)
}

// Reads the open file from its start to its end.
fn read_open<H: Shelf>(
    alloc: Global,
    shelf: &mut H,
    buffer: &mut [u8],
    limit: u64,
) -> Result<Vec<u8>, ReadFault>
    requires open { (H.state shelf.old).mode ≡ Reading }
    requires buffer { 0 < length buffer.old }
    ensures counts { ReadWholeCounts result (H.state shelf.old) (H.state shelf.new) }
    ensures short { IfOk result (λ bytes. length bytes.items ≤ limit) }
    ensures limit { IfErr result (λ fault. IsLimit limit fault) }
    ensures told { WhereTold (H.state shelf.old).told (H.state shelf.new).told
        (ReadsOpen (λ bytes. bytes.items) limit result) }
{
    let mut bytes = Vec::new(alloc);
    'reads: loop {
        let room = usize::min(
            (limit - bytes.len() as u64).saturating_add(1) as usize,
            buffer.len(),
        );
        let window = &mut buffer[..room];
        match shelf.read(window) {
            Err(Failed) => return Err(ReadFault::Fault),
            Ok(0) => return Ok(bytes),
            Ok(count) => {
                bytes.extend_from_slice(&window[..count])?;
                if bytes.len() as u64 > limit {
                    return Err(ReadFault::TooLong(limit));
                }
            }
        }
    }
}

/// Sends a whole text to a sink. Where a write is refused, the sink has taken the first bytes of
/// the text alone, and its count says so.
pub fn send<S: Sink>(sink: &mut S, text: &[u8]) -> Result<(), Failed>
    ensures { Sends text.now result (S.state sink.old) (S.state sink.new) }
{
    let mut sent = 0;
    while sent < text.len() {
        sent += sink.write(&text[sent..])?;
    }
    Ok(())
}

/// Writes a whole file in the place of one of that name. Where a call is refused, the file is as it
/// was or holds the first bytes of the text alone, and no other file changes.
pub fn store<H: Shelf>(shelf: &mut H, name: &str, text: &[u8]) -> Result<(), Failed>
    ensures counts { WriteCounts result (H.state shelf.old) (H.state shelf.new) }
    ensures told { WhereTold (H.state shelf.old).told (H.state shelf.new).told
        (Stores name.now text.now result) }
{
    shelf.create_file(name)?;
    let mut stored = 0;
    while stored < text.len() {
        stored += shelf.write(&text[stored..])?;
    }
    Ok(())
}

/// Sends pieces of a text to a sink, one after the other, as `send` does the text that they make.
pub fn send_pieces<S: Sink>(sink: &mut S, pieces: &[&[u8]]) -> Result<(), Failed>
    ensures { Sends (flat_map (λ piece. piece.now) pieces.now) result (S.state sink.old)
        (S.state sink.new) }
{
    for piece in pieces {
        match send(sink, piece) {
            Ok(()) => {}
            Err(fault) => return Err(fault),
        }
    }
    Ok(())
}
