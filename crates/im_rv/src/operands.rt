ghost use Rattle.std.specs.Prelude.{◌≡◌, IsTrue, pos};
ghost use Rattle.im_rv.specs.Fits.{fits};
ghost use Rattle.im_rv.specs.Lines.{instruction, line_of};
ghost use Rattle.im_rv.specs.Steps.{word};

use crate::instr::{Instr, Op};

/// Of three registers.
pub(crate) fn register(op: Op, rd: u8, rs1: u8, rs2: u8) -> Instr
    requires { IsTrue (fits op rd rs1 rs2 (pos 0)) }
    ensures { line_of result ≡ instruction op rd rs1 rs2 0 }
{
    Instr {
        op,
        rd,
        rs1,
        rs2,
        imm: 0,
    }
}

/// Of two registers and an immediate.
pub(crate) fn immediate(op: Op, rd: u8, rs1: u8, imm: i32) -> Instr
    requires { IsTrue (fits op rd rs1 0 imm) }
    ensures { line_of result ≡ instruction op rd rs1 0 (word imm) }
{
    Instr {
        op,
        rd,
        rs1,
        rs2: 0,
        imm,
    }
}

/// Without rd: a store or a branch.
pub(crate) fn no_target(op: Op, rs1: u8, rs2: u8, imm: i32) -> Instr
    requires { IsTrue (fits op 0 rs1 rs2 imm) }
    ensures { line_of result ≡ instruction op 0 rs1 rs2 (word imm) }
{
    Instr {
        op,
        rd: 0,
        rs1,
        rs2,
        imm,
    }
}

/// Of rd and an immediate alone.
pub(crate) fn no_source(op: Op, rd: u8, imm: i32) -> Instr
    requires { IsTrue (fits op rd 0 0 imm) }
    ensures { line_of result ≡ instruction op rd 0 0 (word imm) }
{
    Instr {
        op,
        rd,
        rs1: 0,
        rs2: 0,
        imm,
    }
}
