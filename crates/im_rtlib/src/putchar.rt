ghost use Rattle.std.specs.Prelude.{◌≡◌, IfOk};
ghost use Rattle.im_rv.specs.Lines.{code_line, code_lines};
ghost use Rattle.im_rtlib.specs.Routines.{byte_lines, length_lines, middle_cut, putchar};
ghost use Rattle.im_rtlib.specs.Routines.{selector_lines};

use crate::labels::{COUNTED, FIRST, FULL, PUTCHAR, SECOND, STORED};
use crate::lines::{aimed, cut, labelled};
use im_num::{Cause, NoMemory};
use im_rv::assembler::{add, addi, andi, bgeu, bne, jal, jalr, lbu, lui, lw, sb, sltiu, sw};
use im_rv::{Line, plain};
use std::alloc::{AllocError, Global};

/// The byte is stored behind the output, where it has its capacity not yet.
fn byte_part(alloc: Global) -> Result<Vec<Line>, AllocError>
    ensures { IfOk result (λ lines. code_lines lines.items ≡ byte_lines) }
{
    let lines = [
        labelled(PUTCHAR, andi(10, 10, 255)),
        plain(lbu(5, 36, 0)),
        aimed(SECOND, bne(5, 0, 0)),
        plain(lw(6, 12, 0)),
        aimed(COUNTED, jal(0, 0)),
        labelled(SECOND, lw(6, 32, 0)),
        labelled(COUNTED, lw(7, 16, 0)),
        aimed(FULL, bgeu(6, 7, 0)),
        plain(lui(7, 0x400)),
        plain(add(7, 7, 6)),
        plain(sb(10, 0, 7)),
        plain(addi(6, 6, 1)),
        cut(Cause::Length),
    ];
    Vec::from_slice(alloc, &lines)
}

/// The cut between the length and the selector.
fn middle() -> Line
    ensures { code_line result ≡ middle_cut }
{
    let mut line = cut(Cause::Length);
    line.label = Some(STORED);
    line
}

/// The new length is stored where the selector doesn't point.
fn length_part(alloc: Global) -> Result<Vec<Line>, AllocError>
    ensures { IfOk result (λ lines. code_lines lines.items ≡ length_lines) }
{
    let lines = [
        aimed(FIRST, bne(5, 0, 0)),
        plain(sw(6, 32, 0)),
        aimed(STORED, jal(0, 0)),
        labelled(FIRST, sw(6, 12, 0)),
        middle(),
    ];
    Vec::from_slice(alloc, &lines)
}

/// The selector changes sides, and the routine returns.
fn selector_part(alloc: Global) -> Result<Vec<Line>, AllocError>
    ensures { IfOk result (λ lines. code_lines lines.items ≡ selector_lines) }
{
    let lines = [
        plain(sltiu(5, 5, 1)),
        plain(sb(5, 36, 0)),
        cut(Cause::Length),
        plain(jalr(0, 0, 1)),
        labelled(FULL, addi(10, 0, -1)),
        plain(jalr(0, 0, 1)),
    ];
    Vec::from_slice(alloc, &lines)
}

/// The byte in x10 is appended to the output and comes back, or -1 where the output has its
/// capacity (C11 7.21.7.8). The byte is stored in one section, the length in the next, the selector
/// in a third.
pub fn putchar_lines(alloc: Global) -> Result<Vec<Line>, NoMemory>
    ensures { IfOk result (λ lines. code_lines lines.items ≡ putchar) }
{
    let mut lines = byte_part(alloc)?;
    lines.extend_from_slice(&length_part(alloc)?)?;
    lines.extend_from_slice(&selector_part(alloc)?)?;
    Ok(lines)
}
