ghost use Rattle.std.specs.Prelude.{◌≡◌, IfOk};
ghost use Rattle.im_rv.specs.Lines.{code_lines};
ghost use Rattle.im_rtlib.specs.Routines.{exit, stack};

use crate::labels::{EXIT, STACK};
use crate::lines::labelled;
use im_num::NoMemory;
use im_rv::assembler::{addi, ebreak, sw};
use im_rv::{Line, plain};
use std::alloc::Global;

/// The end of a program that has returned: the status is x10. The reason is 0 since the memory was
/// loaded.
pub fn exit_lines(alloc: Global) -> Result<Vec<Line>, NoMemory>
    ensures { IfOk result (λ lines. code_lines lines.items ≡ exit) }
{
    let lines = [labelled(EXIT, sw(10, 4, 0)), plain(ebreak())];
    Ok(Vec::from_slice(alloc, &lines)?)
}

/// The end of a program whose stack is exhausted: the reason is 1. The status is 0 since the memory
/// was loaded.
pub fn stack_lines(alloc: Global) -> Result<Vec<Line>, NoMemory>
    ensures { IfOk result (λ lines. code_lines lines.items ≡ stack) }
{
    let lines = [
        labelled(STACK, addi(5, 0, 1)),
        plain(sw(5, 8, 0)),
        plain(ebreak()),
    ];
    Ok(Vec::from_slice(alloc, &lines)?)
}
