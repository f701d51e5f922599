use crate::shelves::shelf_of;
use im_cmd::top;
use im_io::{MemShelf, MemSink};
use im_trial::{Case, Row, Stop, Texts};
use std::alloc::Global;

/// Room of a stream, in bytes.
const ROOM: u32 = 1_048_576;

/// As many equal bytes are told once.
const MANY: usize = 1000;

/// Which call of the files, of `out` and of `err` fails, none where 0 stands, and the room of both
/// streams in bytes.
#[derive(Clone, Copy)]
pub(crate) struct Limits {
    files: u32,
    out: u32,
    err: u32,
    room: u32,
}

impl Limits {
    /// Nothing fails, and there is room.
    pub(crate) fn none() -> Limits {
        Limits {
            files: 0,
            out: 0,
            err: 0,
            room: ROOM,
        }
    }
}

/// By a field: nothing, or what fails and its number.
fn limits_of(field: &str, case: &mut Case) -> Limits {
    let mut limits = Limits::none();
    if field.is_empty() {
        return limits;
    }
    let (what, number) = case.parted(field, ' ');
    let number = case.small(number);
    match what {
        "files" => limits.files = number,
        "out" => limits.out = number,
        "err" => limits.err = number,
        "room" => limits.room = number,
        _ => case.end(Stop::Row),
    }
    limits
}

fn has_line(text: &[u8], wanted: &[u8]) -> bool {
    for line in text.split(|byte| *byte == b'\n') {
        if line == wanted {
            return true;
        }
    }
    false
}

fn are_equal(bytes: &[u8]) -> bool {
    match bytes.first() {
        Some(first) => bytes.iter().all(|byte| *byte == *first),
        None => true,
    }
}

/// Tells bytes; many equal ones by one of them and their number.
fn tell_bytes(bytes: &[u8], case: &mut Case) {
    if bytes.len() < MANY || !are_equal(bytes) {
        return case.bytes(bytes);
    }
    case.bytes(&bytes[..1]);
    case.show(bytes.len());
    case.say(" times");
}

/// Those of some lines that stand in a text, or all of it where none is looked for.
fn lines_of(alloc: Global, text: &[u8], asked: &[u8]) -> Result<Vec<u8>, Stop> {
    if asked.is_empty() {
        return Ok(Vec::from_slice(alloc, text)?);
    }
    let mut found = Vec::new(alloc);
    for line in asked.split(|byte| *byte == b'\n') {
        if has_line(text, line) {
            if !found.is_empty() {
                found.push(b'\n')?;
            }
            found.extend_from_slice(line)?;
        }
    }
    Ok(found)
}

fn words_of(alloc: Global, command: &str) -> Result<Vec<String>, Stop> {
    let mut words = Vec::new(alloc);
    for word in command.split(' ') {
        words.push(String::from_str(alloc, word)?)?;
    }
    Ok(words)
}

fn sink_of(alloc: Global, limits: Limits, failing: u32) -> Result<MemSink, Stop> {
    Ok(MemSink::new(alloc, limits.room as usize, &[u64::from(failing)])?)
}

/// Carries out a command, and tells its status, its output, and the lines of standard error that
/// are looked for.
pub(crate) fn carry_out(
    shelf: &mut MemShelf,
    command: &str,
    limits: Limits,
    asked: &[u8],
    case: &mut Case,
) -> Result<(), Stop> {
    let alloc = case.alloc;
    let words = words_of(alloc, command)?;
    let mut out = sink_of(alloc, limits, limits.out)?;
    let mut err = sink_of(alloc, limits, limits.err)?;
    case.show(top(alloc, &words, shelf, &mut out, &mut err));
    tell_bytes(out.contents(), case);
    case.bytes(&lines_of(alloc, err.contents(), asked)?);
    Ok(())
}

// Tells a file: what it holds, or the first bytes where their number stands behind `:`.
fn tell_file(shelf: &MemShelf, words: &str, case: &mut Case) {
    let (name, most) = words.split_once(':').unwrap_or((words, "1048576"));
    let most = case.small(most) as usize;
    case.say("; ");
    case.say(name);
    match shelf.file(name) {
        Some(bytes) => case.bytes(bytes.get(..most).unwrap_or(bytes)),
        None => case.say(" absent"),
    }
}

// Carries out commands in turn over a shelf, and tells files.
fn tell_commands(
    shelf: &mut MemShelf,
    row: &Row<'_>,
    limits: Limits,
    asked: &[u8],
    case: &mut Case,
) {
    let mut is_first = true;
    for command in row.field(4).split(';') {
        if !is_first {
            case.say(";");
        }
        is_first = false;
        let carried = carry_out(shelf, command, limits, asked, case);
        case.take(carried);
    }
    for words in row.field(6).split_ascii_whitespace() {
        tell_file(shelf, words, case);
    }
}

/// `command`, a name, files, what fails, commands with `;` between two, the lines of standard error
/// that are looked for, files to be told.
pub(crate) fn command(texts: &Texts, row: &Row<'_>, case: &mut Case) {
    let limits = limits_of(row.field(3), case);
    let asked = case.bytes_of(texts, row, 5);
    let made = shelf_of(case.alloc, texts, row.field(2), u64::from(limits.files));
    if let Some(mut shelf) = case.take(made) {
        tell_commands(&mut shelf, row, limits, &asked, case);
    }
}
