ghost use Rattle.std.specs.Prelude.{◌≡◌, ◌<◌, ◌≤◌, ◌+◌, ◌^◌, ℕ, drop, length};
ghost use Rattle.im_cmd_check.specs.Reading.{begins_marker as marker_begins};
ghost use Rattle.im_cmd_check.specs.Reading.{begins_quoted as quoted_begins};
ghost use Rattle.im_cmd_check.specs.Reading.{behind_number as behind_digits, enter as next_reading};
ghost use Rattle.im_cmd_check.specs.Reading.{marker_digits as digits_of_marker};
ghost use Rattle.im_cmd_check.specs.Reading.{marked_line as line_marked};
ghost use Rattle.im_cmd_check.specs.Reading.{marked_name as name_marked};
ghost use Rattle.im_cmd_check.specs.Reading.{presumed as presumed_reading};
ghost use Rattle.im_cmd_check.specs.Reading.{quoted_or as name_quoted_or, reading_of};

use crate::number::read_number;
use crate::runs::{Run, behind_run, front_run};

/// The file, the number of a line counted from 1, and the line or its front.
#[derive(Clone, Copy)]
pub struct Reading<'a> {
    pub name: &'a [u8],
    pub line: u64,
    pub front: &'a [u8],
}

fn tail(text: &[u8]) -> &[u8]
    ensures { result.now ≡ drop 1 text.now }
{
    &text[text.len().min(1)..]
}

fn begins_marker(line: &[u8]) -> bool
    ensures { result ≡ marker_begins line.now }
{
    line.first() == Some(&b'#')
}

fn marker_digits(line: &[u8]) -> &[u8]
    ensures { result.now ≡ digits_of_marker line.now }
{
    front_run(behind_run(tail(line), Run::Gaps), Run::Digits)
}

// The number of the line behind a line marker (C11 6.10.4); none where the line is no marker.
fn marked_line(line: &[u8]) -> Option<u32>
    ensures { result ≡ line_marked line.now }
{
    if begins_marker(line) {
        read_number(marker_digits(line))
    } else {
        None
    }
}

fn begins_quoted(text: &[u8]) -> bool
    ensures { result ≡ quoted_begins text.now }
{
    text.first() == Some(&b'"')
}

fn quoted_or<'a>(name: &'a [u8], text: &'a [u8]) -> &'a [u8]
    ensures { result.now ≡ name_quoted_or name.now text.now }
{
    if begins_quoted(text) {
        front_run(tail(text), Run::Quoted)
    } else {
        name
    }
}

fn behind_number(line: &[u8]) -> &[u8]
    ensures { result.now ≡ behind_digits line.now }
{
    let number = behind_run(tail(line), Run::Gaps);
    behind_run(behind_run(number, Run::Digits), Run::Gaps)
}

// The name of the file behind a line marker.
fn marked_name<'a>(name: &'a [u8], line: &'a [u8]) -> &'a [u8]
    ensures { result.now ≡ name_marked name.now line.now }
{
    quoted_or(name, behind_number(line))
}

fn enter<'a>(before: Reading<'a>, text: &'a [u8]) -> Reading<'a>
    requires { before.line < 2 ^ 63 }
    ensures reading { reading_of result ≡ next_reading (reading_of before.entry) text.now }
    ensures small { (k : ℕ) → before.entry.line ≤ 2 ^ 32 + k → result.line ≤ 2 ^ 32 + (k + 1) }
{
    match marked_line(before.front) {
        None => Reading {
            name: before.name,
            line: before.line + 1,
            front: text,
        },
        Some(number) => Reading {
            name: marked_name(before.name, before.front),
            line: u64::from(number),
            front: text,
        },
    }
}

/// The line that a text ends in, of the file of this name.
pub fn presumed<'a>(name: &'a [u8], text: &'a [u8]) -> Reading<'a>
    requires { length text.now < 2 ^ 32 }
    ensures { reading_of result ≡ presumed_reading name.now text.now }
{
    let mut reading = Reading {
        name,
        line: 0,
        front: b"",
    };
    for line in text.split(|byte| *byte == b'\n') {
        reading = enter(reading, line);
    }
    reading
}
