ghost use Rattle.std.specs.Prelude.{◌≡◌};
ghost use Rattle.im_rv.specs.Lines.{code_line, line_of, plain_line};

use crate::instr::Instr;
use im_num::Cause;

/// An instruction before it has a place in the code.
#[derive(Clone, Copy)]
pub struct Line {
    /// The label that stands here.
    pub label: Option<u32>,
    pub instr: Instr,
    /// The label whose distance the immediate is to be.
    pub target: Option<u32>,
    /// The number of the access that this instruction is.
    pub access: Option<u64>,
    /// Why a cut stands here.
    pub cause: Option<Cause>,
}

/// The lines of a function or of a routine.
#[derive(Drop)]
pub struct Part {
    pub name: String,
    pub lines: Vec<Line>,
}

/// Code that has its place.
#[derive(Drop)]
pub struct Code {
    /// The words of the instructions, from 0x1000 on.
    pub words: Vec<u32>,
    /// The address of the first instruction to run.
    pub entry: u32,
    /// The cuts, by address.
    pub cuts: Vec<Cut>,
}

/// A call of the checkpoint routine.
#[derive(Drop)]
pub struct Cut {
    /// The address of its instruction.
    pub at: u32,
    /// The part that it stands in.
    pub function: String,
    /// Why it stands there; the two numbers of a dependence are the addresses of the accesses.
    pub cause: Cause,
}

/// A line with nothing but its instruction.
pub fn plain(instr: Instr) -> Line
    ensures { code_line result ≡ plain_line (line_of instr) }
{
    Line {
        label: None,
        instr,
        target: None,
        access: None,
        cause: None,
    }
}
