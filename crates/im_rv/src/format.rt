ghost use Rattle.std.specs.Prelude.{◌≡◌};
ghost use Rattle.im_rv.specs.Formats.{format_of};

use crate::instr::Op;

/// The formats of instructions (RISC-V Unprivileged ISA, 2.2 and 2.3).
#[derive(Clone, Copy, PartialEq, Eq, Debug)]
pub enum Format {
    /// R-type: three registers.
    Register,
    /// I-type: two registers and 12 bits, also for loads and `jalr`.
    Immediate,
    /// I-type whose 12 bits are funct7 and a count from 0 to 31.
    Shift,
    /// S-type.
    Store,
    /// B-type.
    Branch,
    /// U-type.
    Upper,
    /// J-type.
    Jump,
    /// `fence`: I-type whose 12 bits are no number.
    Order,
    /// `ebreak`: one word.
    Whole,
}

impl Op {
    /// The format of the operation's words.
    pub fn format(self) -> Format
        ensures { result ≡ format_of self }
    {
        match self {
            Op::Lui | Op::Auipc => Format::Upper,
            Op::Jal => Format::Jump,
            Op::Beq | Op::Bne | Op::Blt | Op::Bge | Op::Bltu | Op::Bgeu => Format::Branch,
            Op::Jalr
            | Op::Lb
            | Op::Lh
            | Op::Lw
            | Op::Lbu
            | Op::Lhu
            | Op::Addi
            | Op::Slti
            | Op::Sltiu
            | Op::Xori
            | Op::Ori
            | Op::Andi => Format::Immediate,
            Op::Sb | Op::Sh | Op::Sw => Format::Store,
            Op::Slli | Op::Srli | Op::Srai => Format::Shift,
            Op::Fence => Format::Order,
            Op::Ebreak => Format::Whole,
            _ => Format::Register,
        }
    }
}
