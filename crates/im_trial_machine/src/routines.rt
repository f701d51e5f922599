use crate::numbers::place_of;
use crate::words::words_of;
use im_ckpt::{boot_buffer, checkpoint_lines, recovery_lines};
use im_rtlib::{exit_lines, getchar_lines, putchar_lines, stack_lines};
use im_rv::Line;
use im_rv::decode::decode;
use im_rv::encode::encode;
use im_trial::{Case, Row, Stop, Texts};
use std::alloc::Global;

/// The lines of a routine by its name.
pub(crate) fn lines_of(alloc: Global, name: &str) -> Result<Vec<Line>, Stop> {
    let lines = match name {
        "getchar" => getchar_lines(alloc),
        "putchar" => putchar_lines(alloc),
        "exit" => exit_lines(alloc),
        "stack" => stack_lines(alloc),
        "recovery" => recovery_lines(alloc),
        "checkpoint" => checkpoint_lines(alloc),
        _ => return Err(Stop::Row),
    };
    Ok(lines?)
}

// How many lines there are where `lines` stands, and else the word of the line at that place.
fn tell_line(lines: &[Line], place: &str, case: &mut Case) {
    if place == "lines" {
        case.show(lines.len());
    } else if let Some(line) = lines.get(place_of(place, case)) {
        case.word(encode(line.instr));
    }
}

/// `routine`, its name, places: how many lines it has where `lines` stands among them, and the
/// words at the others.
pub(crate) fn routine(row: &Row<'_>, case: &mut Case) {
    let alloc = case.alloc;
    let Some(lines) = case.take(lines_of(alloc, row.field(1))) else {
        return;
    };
    for place in row.field(2).split_ascii_whitespace() {
        tell_line(&lines, place, case);
    }
}

/// `first-buffer`, a name, the start, the stack pointer: the words of the first buffer.
pub(crate) fn first_buffer(row: &Row<'_>, case: &mut Case) {
    let start = case.hex(row.field(2));
    let sp = case.hex(row.field(3));
    for word in boot_buffer(start, sp) {
        case.show(word);
    }
}

/// The place of a label.
fn label_place(lines: &[Line], label: u32) -> Option<usize> {
    lines.iter().position(|line| line.label == Some(label))
}

/// The distance in bytes from one word to another.
fn distance(from: usize, to: usize) -> Option<i32> {
    let from = i32::try_from(from).ok()?;
    let to = i32::try_from(to).ok()?;
    to.checked_sub(from)?.checked_mul(4)
}

/// The immediate of the line at a place: the distance to its target, where it has one.
fn immediate(lines: &[Line], at: usize, line: &Line) -> Option<i32> {
    match line.target {
        None => Some(line.instr.imm),
        Some(label) => distance(at, label_place(lines, label)?),
    }
}

/// Whether a word is that of the line at a place.
fn is_word_of(lines: &[Line], at: usize, word: u32) -> bool {
    match (lines.get(at), decode(word)) {
        (Some(line), Some(instr)) => {
            instr.op == line.instr.op
                && instr.rd == line.instr.rd
                && instr.rs1 == line.instr.rs1
                && instr.rs2 == line.instr.rs2
                && immediate(lines, at, line) == Some(instr.imm)
        }
        _ => false,
    }
}

// How many of the words are those of the lines.
fn count_equal(lines: &[Line], words: &[u32]) -> u32 {
    let mut equal: u32 = 0;
    for (at, word) in words.iter().enumerate() {
        if is_word_of(lines, at, *word) {
            equal = equal.saturating_add(1);
        }
    }
    equal
}

// The lines of recovery, the checkpoint, `getchar` and `putchar`.
fn runtime_lines(alloc: Global) -> Result<Vec<Line>, Stop> {
    let mut lines = Vec::new(alloc);
    for name in ["recovery", "checkpoint", "getchar", "putchar"] {
        lines.extend_from_slice(&lines_of(alloc, name)?)?;
    }
    Ok(lines)
}

/// `runtime`, a name, words: how many lines of the runtime there are, and how many of the words are
/// those.
pub(crate) fn runtime(texts: &Texts, row: &Row<'_>, case: &mut Case) {
    let alloc = case.alloc;
    let Some(lines) = case.take(runtime_lines(alloc)) else {
        return;
    };
    case.show(lines.len());
    let words = words_of(texts, row, 2, case);
    case.show(count_equal(&lines, &words));
}
