ghost use Rattle.std.specs.Prelude.{◌≡◌, IsTrue};
ghost use Rattle.im_rv.specs.Fits.{fits};
ghost use Rattle.im_rv.specs.Lines.{instruction, line_of};
ghost use Rattle.im_rv.specs.Steps.{word};

use crate::instr::{Instr, Op};
use crate::operands::{immediate, no_source, no_target};

/// `jal rd, offset`.
pub fn jal(rd: u8, offset: i32) -> Instr
    requires { IsTrue (fits Op.Jal rd 0 0 offset) }
    ensures { line_of result ≡ instruction Op.Jal rd 0 0 (word offset) }
{
    no_source(Op::Jal, rd, offset)
}

/// `jalr rd, offset(rs1)`.
pub fn jalr(rd: u8, offset: i32, rs1: u8) -> Instr
    requires { IsTrue (fits Op.Jalr rd rs1 0 offset) }
    ensures { line_of result ≡ instruction Op.Jalr rd rs1 0 (word offset) }
{
    immediate(Op::Jalr, rd, rs1, offset)
}

/// `beq rs1, rs2, offset`.
pub fn beq(rs1: u8, rs2: u8, offset: i32) -> Instr
    requires { IsTrue (fits Op.Beq 0 rs1 rs2 offset) }
    ensures { line_of result ≡ instruction Op.Beq 0 rs1 rs2 (word offset) }
{
    no_target(Op::Beq, rs1, rs2, offset)
}

/// `bne rs1, rs2, offset`.
pub fn bne(rs1: u8, rs2: u8, offset: i32) -> Instr
    requires { IsTrue (fits Op.Bne 0 rs1 rs2 offset) }
    ensures { line_of result ≡ instruction Op.Bne 0 rs1 rs2 (word offset) }
{
    no_target(Op::Bne, rs1, rs2, offset)
}

/// `blt rs1, rs2, offset`.
pub fn blt(rs1: u8, rs2: u8, offset: i32) -> Instr
    requires { IsTrue (fits Op.Blt 0 rs1 rs2 offset) }
    ensures { line_of result ≡ instruction Op.Blt 0 rs1 rs2 (word offset) }
{
    no_target(Op::Blt, rs1, rs2, offset)
}

/// `bge rs1, rs2, offset`.
pub fn bge(rs1: u8, rs2: u8, offset: i32) -> Instr
    requires { IsTrue (fits Op.Bge 0 rs1 rs2 offset) }
    ensures { line_of result ≡ instruction Op.Bge 0 rs1 rs2 (word offset) }
{
    no_target(Op::Bge, rs1, rs2, offset)
}

/// `bltu rs1, rs2, offset`.
pub fn bltu(rs1: u8, rs2: u8, offset: i32) -> Instr
    requires { IsTrue (fits Op.Bltu 0 rs1 rs2 offset) }
    ensures { line_of result ≡ instruction Op.Bltu 0 rs1 rs2 (word offset) }
{
    no_target(Op::Bltu, rs1, rs2, offset)
}

/// `bgeu rs1, rs2, offset`.
pub fn bgeu(rs1: u8, rs2: u8, offset: i32) -> Instr
    requires { IsTrue (fits Op.Bgeu 0 rs1 rs2 offset) }
    ensures { line_of result ≡ instruction Op.Bgeu 0 rs1 rs2 (word offset) }
{
    no_target(Op::Bgeu, rs1, rs2, offset)
}

/// `lb rd, offset(rs1)`.
pub fn lb(rd: u8, offset: i32, rs1: u8) -> Instr
    requires { IsTrue (fits Op.Lb rd rs1 0 offset) }
    ensures { line_of result ≡ instruction Op.Lb rd rs1 0 (word offset) }
{
    immediate(Op::Lb, rd, rs1, offset)
}

/// `lh rd, offset(rs1)`.
pub fn lh(rd: u8, offset: i32, rs1: u8) -> Instr
    requires { IsTrue (fits Op.Lh rd rs1 0 offset) }
    ensures { line_of result ≡ instruction Op.Lh rd rs1 0 (word offset) }
{
    immediate(Op::Lh, rd, rs1, offset)
}

/// `lw rd, offset(rs1)`.
pub fn lw(rd: u8, offset: i32, rs1: u8) -> Instr
    requires { IsTrue (fits Op.Lw rd rs1 0 offset) }
    ensures { line_of result ≡ instruction Op.Lw rd rs1 0 (word offset) }
{
    immediate(Op::Lw, rd, rs1, offset)
}

/// `lbu rd, offset(rs1)`.
pub fn lbu(rd: u8, offset: i32, rs1: u8) -> Instr
    requires { IsTrue (fits Op.Lbu rd rs1 0 offset) }
    ensures { line_of result ≡ instruction Op.Lbu rd rs1 0 (word offset) }
{
    immediate(Op::Lbu, rd, rs1, offset)
}

/// `lhu rd, offset(rs1)`.
pub fn lhu(rd: u8, offset: i32, rs1: u8) -> Instr
    requires { IsTrue (fits Op.Lhu rd rs1 0 offset) }
    ensures { line_of result ≡ instruction Op.Lhu rd rs1 0 (word offset) }
{
    immediate(Op::Lhu, rd, rs1, offset)
}

/// `sb rs2, offset(rs1)`.
pub fn sb(rs2: u8, offset: i32, rs1: u8) -> Instr
    requires { IsTrue (fits Op.Sb 0 rs1 rs2 offset) }
    ensures { line_of result ≡ instruction Op.Sb 0 rs1 rs2 (word offset) }
{
    no_target(Op::Sb, rs1, rs2, offset)
}

/// `sh rs2, offset(rs1)`.
pub fn sh(rs2: u8, offset: i32, rs1: u8) -> Instr
    requires { IsTrue (fits Op.Sh 0 rs1 rs2 offset) }
    ensures { line_of result ≡ instruction Op.Sh 0 rs1 rs2 (word offset) }
{
    no_target(Op::Sh, rs1, rs2, offset)
}

/// `sw rs2, offset(rs1)`.
pub fn sw(rs2: u8, offset: i32, rs1: u8) -> Instr
    requires { IsTrue (fits Op.Sw 0 rs1 rs2 offset) }
    ensures { line_of result ≡ instruction Op.Sw 0 rs1 rs2 (word offset) }
{
    no_target(Op::Sw, rs1, rs2, offset)
}

/// `fence`, whose upper 12 bits are these (RISC-V Unprivileged ISA, 2.7).
pub fn fence(rd: u8, rs1: u8, imm: i32) -> Instr
    requires { IsTrue (fits Op.Fence rd rs1 0 imm) }
    ensures { line_of result ≡ instruction Op.Fence rd rs1 0 (word imm) }
{
    immediate(Op::Fence, rd, rs1, imm)
}

/// `ebreak`.
pub fn ebreak() -> Instr
    ensures { line_of result ≡ instruction Op.Ebreak 0 0 0 0 }
{
    no_source(Op::Ebreak, 0, 0)
}
