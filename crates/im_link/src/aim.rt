ghost use Rattle.std.specs.Prelude.{◌≡◌, ◌<◌, ◌^◌};
ghost use Rattle.im_rv.specs.Steps.{sum_of, word};
ghost use Rattle.im_rv.specs.Lines.{line_of};
ghost use Rattle.im_rv.specs.Code.{address};
ghost use Rattle.im_link.specs.Links.{IsAimed, Reaches};

use im_rv::Instr;

/// A line with a target: the number of its word, the label that it leads to, and its instruction.
#[derive(Clone, Copy)]
pub struct Aim {
    pub at: u32,
    pub label: u32,
    pub instr: Instr,
}

// The distance in bytes from one word to another.
fn distance(from: usize, to: usize) -> i32
    requires from { from < 261120 }
    requires to { to < 261120 }
    ensures word { word result < 2 ^ 32 }
    ensures leads { sum_of (address from) (word result) ≡ address to }
{
    if to < from {
        -(4 * ((from - to) as i32))
    } else {
        4 * ((to - from) as i32)
    }
}

/// The instruction at word `from`, with the immediate that leads to word `to`.
pub fn aimed(instr: &Instr, from: usize, to: usize) -> Instr
    requires from { from < 261120 }
    requires to { to < 261120 }
    requires reach { Reaches instr.now from to }
    ensures { IsAimed (line_of instr.now) from to (line_of result) }
{
    let imm = distance(from, to);
    Instr {
        op: instr.op,
        rd: instr.rd,
        rs1: instr.rs1,
        rs2: instr.rs2,
        imm,
    }
}
