ghost use Rattle.std.specs.Prelude.{◌≡◌, IfOk};
ghost use Rattle.im_rv.specs.Lines.{code_line, code_lines};
ghost use Rattle.im_rtlib.specs.Routines.{getchar, getchar_first};

use crate::labels::{AT_END, GETCHAR};
use crate::lines::{aimed, cut, labelled, numbered};
use im_num::{Cause, NoMemory};
use im_rv::assembler::{add, addi, bgeu, jalr, lbu, lui, lw, sw};
use im_rv::{Line, plain};
use std::alloc::Global;

fn first_line() -> Line
    ensures { code_line result ≡ getchar_first }
{
    let mut line = numbered(0, lw(5, 24, 0));
    line.label = Some(GETCHAR);
    line
}

/// The next byte of the input comes to x10, or -1 at its end (C11 7.21.7.6). IN_POS is read in one
/// section and stored in the next.
pub fn getchar_lines(alloc: Global) -> Result<Vec<Line>, NoMemory>
    ensures { IfOk result (λ lines. code_lines lines.items ≡ getchar) }
{
    let lines = [
        first_line(),
        plain(lw(6, 20, 0)),
        aimed(AT_END, bgeu(5, 6, 0)),
        plain(lui(6, 0x300)),
        plain(add(6, 6, 5)),
        plain(lbu(10, 0, 6)),
        plain(addi(5, 5, 1)),
        cut(Cause::Dep { read: 0, write: 1 }),
        numbered(1, sw(5, 24, 0)),
        plain(jalr(0, 0, 1)),
        labelled(AT_END, addi(10, 0, -1)),
        plain(jalr(0, 0, 1)),
    ];
    Ok(Vec::from_slice(alloc, &lines)?)
}
