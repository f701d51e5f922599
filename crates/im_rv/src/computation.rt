ghost use Rattle.std.specs.Prelude.{◌≡◌, IsTrue, pos};
ghost use Rattle.im_rv.specs.Fits.{fits};
ghost use Rattle.im_rv.specs.Lines.{instruction, line_of};
ghost use Rattle.im_rv.specs.Steps.{word};

use crate::instr::{Instr, Op};
use crate::operands::{immediate, no_source, register};

/// `lui rd, imm`.
pub fn lui(rd: u8, imm: i32) -> Instr
    requires { IsTrue (fits Op.Lui rd 0 0 imm) }
    ensures { line_of result ≡ instruction Op.Lui rd 0 0 (word imm) }
{
    no_source(Op::Lui, rd, imm)
}

/// `auipc rd, imm`.
pub fn auipc(rd: u8, imm: i32) -> Instr
    requires { IsTrue (fits Op.Auipc rd 0 0 imm) }
    ensures { line_of result ≡ instruction Op.Auipc rd 0 0 (word imm) }
{
    no_source(Op::Auipc, rd, imm)
}

/// `addi rd, rs1, imm`.
pub fn addi(rd: u8, rs1: u8, imm: i32) -> Instr
    requires { IsTrue (fits Op.Addi rd rs1 0 imm) }
    ensures { line_of result ≡ instruction Op.Addi rd rs1 0 (word imm) }
{
    immediate(Op::Addi, rd, rs1, imm)
}

/// `slti rd, rs1, imm`.
pub fn slti(rd: u8, rs1: u8, imm: i32) -> Instr
    requires { IsTrue (fits Op.Slti rd rs1 0 imm) }
    ensures { line_of result ≡ instruction Op.Slti rd rs1 0 (word imm) }
{
    immediate(Op::Slti, rd, rs1, imm)
}

/// `sltiu rd, rs1, imm`.
pub fn sltiu(rd: u8, rs1: u8, imm: i32) -> Instr
    requires { IsTrue (fits Op.Sltiu rd rs1 0 imm) }
    ensures { line_of result ≡ instruction Op.Sltiu rd rs1 0 (word imm) }
{
    immediate(Op::Sltiu, rd, rs1, imm)
}

/// `xori rd, rs1, imm`.
pub fn xori(rd: u8, rs1: u8, imm: i32) -> Instr
    requires { IsTrue (fits Op.Xori rd rs1 0 imm) }
    ensures { line_of result ≡ instruction Op.Xori rd rs1 0 (word imm) }
{
    immediate(Op::Xori, rd, rs1, imm)
}

/// `ori rd, rs1, imm`.
pub fn ori(rd: u8, rs1: u8, imm: i32) -> Instr
    requires { IsTrue (fits Op.Ori rd rs1 0 imm) }
    ensures { line_of result ≡ instruction Op.Ori rd rs1 0 (word imm) }
{
    immediate(Op::Ori, rd, rs1, imm)
}

/// `andi rd, rs1, imm`.
pub fn andi(rd: u8, rs1: u8, imm: i32) -> Instr
    requires { IsTrue (fits Op.Andi rd rs1 0 imm) }
    ensures { line_of result ≡ instruction Op.Andi rd rs1 0 (word imm) }
{
    immediate(Op::Andi, rd, rs1, imm)
}

/// `slli rd, rs1, count`.
pub fn slli(rd: u8, rs1: u8, count: i32) -> Instr
    requires { IsTrue (fits Op.Slli rd rs1 0 count) }
    ensures { line_of result ≡ instruction Op.Slli rd rs1 0 (word count) }
{
    immediate(Op::Slli, rd, rs1, count)
}

/// `srli rd, rs1, count`.
pub fn srli(rd: u8, rs1: u8, count: i32) -> Instr
    requires { IsTrue (fits Op.Srli rd rs1 0 count) }
    ensures { line_of result ≡ instruction Op.Srli rd rs1 0 (word count) }
{
    immediate(Op::Srli, rd, rs1, count)
}

/// `srai rd, rs1, count`.
pub fn srai(rd: u8, rs1: u8, count: i32) -> Instr
    requires { IsTrue (fits Op.Srai rd rs1 0 count) }
    ensures { line_of result ≡ instruction Op.Srai rd rs1 0 (word count) }
{
    immediate(Op::Srai, rd, rs1, count)
}

/// `add rd, rs1, rs2`.
pub fn add(rd: u8, rs1: u8, rs2: u8) -> Instr
    requires { IsTrue (fits Op.Add rd rs1 rs2 (pos 0)) }
    ensures { line_of result ≡ instruction Op.Add rd rs1 rs2 0 }
{
    register(Op::Add, rd, rs1, rs2)
}

/// `sub rd, rs1, rs2`.
pub fn sub(rd: u8, rs1: u8, rs2: u8) -> Instr
    requires { IsTrue (fits Op.Sub rd rs1 rs2 (pos 0)) }
    ensures { line_of result ≡ instruction Op.Sub rd rs1 rs2 0 }
{
    register(Op::Sub, rd, rs1, rs2)
}

/// `sll rd, rs1, rs2`.
pub fn sll(rd: u8, rs1: u8, rs2: u8) -> Instr
    requires { IsTrue (fits Op.Sll rd rs1 rs2 (pos 0)) }
    ensures { line_of result ≡ instruction Op.Sll rd rs1 rs2 0 }
{
    register(Op::Sll, rd, rs1, rs2)
}

/// `slt rd, rs1, rs2`.
pub fn slt(rd: u8, rs1: u8, rs2: u8) -> Instr
    requires { IsTrue (fits Op.Slt rd rs1 rs2 (pos 0)) }
    ensures { line_of result ≡ instruction Op.Slt rd rs1 rs2 0 }
{
    register(Op::Slt, rd, rs1, rs2)
}

/// `sltu rd, rs1, rs2`.
pub fn sltu(rd: u8, rs1: u8, rs2: u8) -> Instr
    requires { IsTrue (fits Op.Sltu rd rs1 rs2 (pos 0)) }
    ensures { line_of result ≡ instruction Op.Sltu rd rs1 rs2 0 }
{
    register(Op::Sltu, rd, rs1, rs2)
}

/// `xor rd, rs1, rs2`.
pub fn xor(rd: u8, rs1: u8, rs2: u8) -> Instr
    requires { IsTrue (fits Op.Xor rd rs1 rs2 (pos 0)) }
    ensures { line_of result ≡ instruction Op.Xor rd rs1 rs2 0 }
{
    register(Op::Xor, rd, rs1, rs2)
}

/// `srl rd, rs1, rs2`.
pub fn srl(rd: u8, rs1: u8, rs2: u8) -> Instr
    requires { IsTrue (fits Op.Srl rd rs1 rs2 (pos 0)) }
    ensures { line_of result ≡ instruction Op.Srl rd rs1 rs2 0 }
{
    register(Op::Srl, rd, rs1, rs2)
}

/// `sra rd, rs1, rs2`.
pub fn sra(rd: u8, rs1: u8, rs2: u8) -> Instr
    requires { IsTrue (fits Op.Sra rd rs1 rs2 (pos 0)) }
    ensures { line_of result ≡ instruction Op.Sra rd rs1 rs2 0 }
{
    register(Op::Sra, rd, rs1, rs2)
}

/// `or rd, rs1, rs2`.
pub fn or(rd: u8, rs1: u8, rs2: u8) -> Instr
    requires { IsTrue (fits Op.Or rd rs1 rs2 (pos 0)) }
    ensures { line_of result ≡ instruction Op.Or rd rs1 rs2 0 }
{
    register(Op::Or, rd, rs1, rs2)
}

/// `and rd, rs1, rs2`.
pub fn and(rd: u8, rs1: u8, rs2: u8) -> Instr
    requires { IsTrue (fits Op.And rd rs1 rs2 (pos 0)) }
    ensures { line_of result ≡ instruction Op.And rd rs1 rs2 0 }
{
    register(Op::And, rd, rs1, rs2)
}

/// `mul rd, rs1, rs2`.
pub fn mul(rd: u8, rs1: u8, rs2: u8) -> Instr
    requires { IsTrue (fits Op.Mul rd rs1 rs2 (pos 0)) }
    ensures { line_of result ≡ instruction Op.Mul rd rs1 rs2 0 }
{
    register(Op::Mul, rd, rs1, rs2)
}

/// `mulh rd, rs1, rs2`.
pub fn mulh(rd: u8, rs1: u8, rs2: u8) -> Instr
    requires { IsTrue (fits Op.Mulh rd rs1 rs2 (pos 0)) }
    ensures { line_of result ≡ instruction Op.Mulh rd rs1 rs2 0 }
{
    register(Op::Mulh, rd, rs1, rs2)
}

/// `mulhsu rd, rs1, rs2`.
pub fn mulhsu(rd: u8, rs1: u8, rs2: u8) -> Instr
    requires { IsTrue (fits Op.Mulhsu rd rs1 rs2 (pos 0)) }
    ensures { line_of result ≡ instruction Op.Mulhsu rd rs1 rs2 0 }
{
    register(Op::Mulhsu, rd, rs1, rs2)
}

/// `mulhu rd, rs1, rs2`.
pub fn mulhu(rd: u8, rs1: u8, rs2: u8) -> Instr
    requires { IsTrue (fits Op.Mulhu rd rs1 rs2 (pos 0)) }
    ensures { line_of result ≡ instruction Op.Mulhu rd rs1 rs2 0 }
{
    register(Op::Mulhu, rd, rs1, rs2)
}

/// `div rd, rs1, rs2`.
pub fn div(rd: u8, rs1: u8, rs2: u8) -> Instr
    requires { IsTrue (fits Op.Div rd rs1 rs2 (pos 0)) }
    ensures { line_of result ≡ instruction Op.Div rd rs1 rs2 0 }
{
    register(Op::Div, rd, rs1, rs2)
}

/// `divu rd, rs1, rs2`.
pub fn divu(rd: u8, rs1: u8, rs2: u8) -> Instr
    requires { IsTrue (fits Op.Divu rd rs1 rs2 (pos 0)) }
    ensures { line_of result ≡ instruction Op.Divu rd rs1 rs2 0 }
{
    register(Op::Divu, rd, rs1, rs2)
}

/// `rem rd, rs1, rs2`.
pub fn rem(rd: u8, rs1: u8, rs2: u8) -> Instr
    requires { IsTrue (fits Op.Rem rd rs1 rs2 (pos 0)) }
    ensures { line_of result ≡ instruction Op.Rem rd rs1 rs2 0 }
{
    register(Op::Rem, rd, rs1, rs2)
}

/// `remu rd, rs1, rs2`.
pub fn remu(rd: u8, rs1: u8, rs2: u8) -> Instr
    requires { IsTrue (fits Op.Remu rd rs1 rs2 (pos 0)) }
    ensures { line_of result ≡ instruction Op.Remu rd rs1 rs2 0 }
{
    register(Op::Remu, rd, rs1, rs2)
}
