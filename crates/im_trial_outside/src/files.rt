use im_io::{Failed, MemShelf, MemSink, ReadFault, Shelf, read_whole, send, store};
use im_trial::{Case, Row, Stop};
use std::alloc::Global;

/// Tells whether something was done.
pub(crate) fn tell_done(done: Result<(), Failed>, case: &mut Case) {
    case.say(if done.is_ok() { " done" } else { " failed" });
}

/// Tells what was read.
pub(crate) fn tell_read(read: Result<Vec<u8>, ReadFault>, case: &mut Case) {
    match read {
        Ok(bytes) => case.bytes(&bytes),
        Err(ReadFault::TooLong(most)) => {
            case.say(" over");
            case.show(most);
        }
        Err(ReadFault::Absent) => case.say(" absent"),
        Err(ReadFault::Fault) => case.say(" fault"),
        Err(ReadFault::OutOfMemory) => case.say(" no memory"),
    }
}

// Two files: `a` has six bytes and room for eight, and `b` isn't there and has room for four.
fn shelf_of(alloc: Global, failing: u32) -> Result<MemShelf, Stop> {
    let sensor = Vec::from_slice(alloc, b"sensor")?;
    let files = vec![in alloc;
        (String::from_str(alloc, "a")?, Some(sensor), 8),
        (String::from_str(alloc, "b")?, None, 4),
    ]?;
    Ok(MemShelf::new(alloc, &files, &[u64::from(failing)])?)
}

// One step over files: `read`, a name and a limit; `store`, a name and a text.
fn step<H: Shelf>(shelf: &mut H, words: &str, case: &mut Case) {
    let (what, rest) = case.parted(words, ' ');
    let (name, rest) = case.parted(rest, ' ');
    if what == "read" {
        let limit = u64::from(case.small(rest));
        tell_read(read_whole(case.alloc, shelf, name, limit), case);
    } else {
        tell_done(store(shelf, name, rest.as_bytes()), case);
    }
}

fn tell_file(shelf: &MemShelf, name: &str, case: &mut Case) {
    case.say("; ");
    case.say(name);
    match shelf.file(name) {
        Some(bytes) => case.bytes(bytes),
        None => case.say(" absent"),
    }
}

/// `shelf`, a name, the call that fails or 0, steps with `;` between two: each answer; how many
/// reads and writes were refused and how many files weren't there; and what three files hold.
pub(crate) fn shelf(row: &Row<'_>, case: &mut Case) {
    let failing = case.small(row.field(2));
    let made = shelf_of(case.alloc, failing);
    let Some(mut shelf) = case.take(made) else {
        return;
    };
    for words in row.field(3).split(';') {
        step(&mut shelf, words, case);
    }
    case.say(";");
    case.show(shelf.read_faults());
    case.show(shelf.write_faults());
    case.show(shelf.absences());
    for name in ["a", "b", "c"] {
        tell_file(&shelf, name, case);
    }
}

/// `sink`, a name, the room, the write that fails or 0, pieces with `;` between two: whether each
/// was sent, and what is kept behind it; and how many writes were refused.
pub(crate) fn sink(row: &Row<'_>, case: &mut Case) {
    let room = case.small(row.field(2)) as usize;
    let failing = u64::from(case.small(row.field(3)));
    let Ok(mut sink) = MemSink::new(case.alloc, room, &[failing]) else {
        return case.end(Stop::Memory);
    };
    for piece in row.field(4).split(';') {
        tell_done(send(&mut sink, piece.as_bytes()), case);
        case.bytes(sink.contents());
    }
    case.show(sink.faults());
}
