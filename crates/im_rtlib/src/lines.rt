ghost use Rattle.std.specs.Prelude.{◌≡◌};
ghost use Rattle.im_rv.specs.Lines.{code_line, line_of};
ghost use Rattle.im_rtlib.specs.Routines.{aimed as aimed_line, cut as cut_line};
ghost use Rattle.im_rtlib.specs.Routines.{labelled as labelled_line, numbered as numbered_line};

use im_num::Cause;
use im_rv::assembler::jal;
use im_rv::{Instr, Line, plain};

/// An instruction that has a label.
pub(crate) fn labelled(label: u32, instr: Instr) -> Line
    ensures { code_line result ≡ labelled_line label (line_of instr) }
{
    let mut line = plain(instr);
    line.label = Some(label);
    line
}

/// A jump or branch to a label.
pub(crate) fn aimed(target: u32, instr: Instr) -> Line
    ensures { code_line result ≡ aimed_line target (line_of instr) }
{
    let mut line = plain(instr);
    line.target = Some(target);
    line
}

/// A load or store that a cause names.
pub(crate) fn numbered(access: u64, instr: Instr) -> Line
    ensures { code_line result ≡ numbered_line access (line_of instr) }
{
    let mut line = plain(instr);
    line.access = Some(access);
    line
}

/// A cut that saves x1, x2 and x5 to x10.
pub(crate) fn cut(cause: Cause) -> Line
    ensures { code_line result ≡ cut_line cause }
{
    let mut line = plain(jal(3, 0));
    line.target = Some(10);
    line.cause = Some(cause);
    line
}
