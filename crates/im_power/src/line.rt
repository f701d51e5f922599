ghost use Rattle.std.specs.Prelude.{◌≡◌, map, IfOk};
ghost use Rattle.im_power.specs.Text.{number, mask_of, period, by_fields, line_of, fields};
ghost use Rattle.im_power.specs.Text.{is_blank as blank_test, is_comment as comment_test};

use crate::period::Period;
use std::alloc::{AllocError, Global};

/// What a line of a trace text says.
#[derive(Clone, Copy, PartialEq, Eq, Debug)]
pub enum Line {
    /// Nothing: the line is empty or a comment.
    Skipped,
    Gives(Period),
    Malformed,
    ZeroRepeats,
}

fn is_blank(byte: u8) -> bool
    ensures { result ≡ blank_test byte }
{
    matches!(byte, b' ' | b'\t' | b'\r')
}

/// The parts of a line that blanks, tabs and CRs part.
fn split_fields(alloc: Global, line: &[u8]) -> Result<Vec<&[u8]>, AllocError>
    ensures { IfOk result (λ parts. map (λ part. part.now) parts.items ≡ fields line.now) }
{
    line.split(|byte| is_blank(*byte))
        .filter(|field| !field.is_empty())
        .collect(alloc)
}

/// The number of a field of decimal digits, where a word holds it.
fn read_number(field: &[u8]) -> Option<u32>
    ensures { result ≡ number field.now }
{
    let mut value: u32 = 0;
    for byte in field {
        if !byte.is_ascii_digit() {
            return None;
        }
        value = value.checked_mul(10)?.checked_add(u32::from(*byte - b'0'))?;
    }
    Some(value)
}

/// A number that is a mask of four bits.
fn to_mask(number: Option<u32>) -> Option<u32>
    ensures { result ≡ mask_of number }
{
    match number {
        Some(mask) if mask < 16 => number,
        _ => None,
    }
}

fn make_period(n: Option<u32>, junk: Option<u32>, count: Option<u32>, mask: Option<u32>) -> Line
    ensures { result ≡ period n junk count mask }
{
    match (n, junk, count, mask) {
        (Some(_), Some(_), Some(0), Some(_)) => Line::ZeroRepeats,
        (Some(n), Some(junk), Some(count), Some(mask)) => Line::Gives(Period {
            n,
            junk,
            count,
            mask,
        }),
        _ => Line::Malformed,
    }
}

/// What the line says that has these fields.
fn read_fields(parts: &[&[u8]]) -> Line
    ensures { result ≡ by_fields (map (λ part. part.now) parts.now) }
{
    match parts {
        [] => Line::Skipped,
        [n] => make_period(read_number(n), Some(0), Some(1), Some(0)),
        [n, junk] => make_period(read_number(n), read_number(junk), Some(1), Some(0)),
        [n, junk, count] => make_period(
            read_number(n),
            read_number(junk),
            read_number(count),
            Some(0),
        ),
        [n, junk, count, mask] => make_period(
            read_number(n),
            read_number(junk),
            read_number(count),
            to_mask(read_number(mask)),
        ),
        _ => Line::Malformed,
    }
}

fn is_comment(parts: &[&[u8]]) -> bool
    ensures { result ≡ comment_test (map (λ part. part.now) parts.now) }
{
    match parts {
        [first, ..] => first.first() == Some(&b';'),
        [] => false,
    }
}

/// What a line says, its LF left out.
pub fn read_line(alloc: Global, line: &[u8]) -> Result<Line, AllocError>
    ensures { IfOk result (λ said. said ≡ line_of line.now) }
{
    let parts = split_fields(alloc, line)?;
    if is_comment(&parts) {
        return Ok(Line::Skipped);
    }
    Ok(read_fields(&parts))
}
