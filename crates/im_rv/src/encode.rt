ghost use Rattle.std.specs.Prelude.{◌≡◌, ◌<◌, ◌^◌, ℕ, Some};
ghost use Rattle.im_rv.specs.Decode.{decode};
ghost use Rattle.im_rv.specs.Encode.{assembled, at_rd, at_rs1, at_rs2, branch_bits, code_bits};
ghost use Rattle.im_rv.specs.Encode.{encoded, jump_bits};
ghost use Rattle.im_rv.specs.Lines.{line_of};

use crate::format::Format;
use crate::instr::{Instr, Op};

fn rd_bits(register: u8) -> u32
    ensures { result ≡ at_rd register }
{
    u32::from(register) % 32 * 128
}

fn rs1_bits(register: u8) -> u32
    ensures { result ≡ at_rs1 register }
{
    u32::from(register) % 32 * 32768
}

fn rs2_bits(register: u8) -> u32
    ensures { result ≡ at_rs2 register }
{
    u32::from(register) % 32 * 1048576
}

fn branch_offset_bits(imm: u32) -> u32
    ensures { result ≡ branch_bits imm }
{
    imm / 2048 % 2 * 128
        + imm / 2 % 16 * 256
        + imm / 32 % 64 * 33554432
        + imm / 4096 % 2 * 2147483648
}

fn jump_offset_bits(imm: u32) -> u32
    ensures { result ≡ jump_bits imm }
{
    imm / 4096 % 256 * 4096
        + imm / 2048 % 2 * 1048576
        + imm / 2 % 1024 * 2097152
        + imm / 1048576 % 2 * 2147483648
}

/// The word of an operation whose other fields are 0.
fn code_word(op: Op) -> u32
    ensures { result ≡ code_bits op }
{
    match op {
        Op::Lui => 0x0000_0037,
        Op::Auipc => 0x0000_0017,
        Op::Jal => 0x0000_006F,
        Op::Jalr => 0x0000_0067,
        Op::Beq => 0x0000_0063,
        Op::Bne => 0x0000_1063,
        Op::Blt => 0x0000_4063,
        Op::Bge => 0x0000_5063,
        Op::Bltu => 0x0000_6063,
        Op::Bgeu => 0x0000_7063,
        Op::Lb => 0x0000_0003,
        Op::Lh => 0x0000_1003,
        Op::Lw => 0x0000_2003,
        Op::Lbu => 0x0000_4003,
        Op::Lhu => 0x0000_5003,
        Op::Sb => 0x0000_0023,
        Op::Sh => 0x0000_1023,
        Op::Sw => 0x0000_2023,
        Op::Addi => 0x0000_0013,
        Op::Slti => 0x0000_2013,
        Op::Sltiu => 0x0000_3013,
        Op::Xori => 0x0000_4013,
        Op::Ori => 0x0000_6013,
        Op::Andi => 0x0000_7013,
        Op::Slli => 0x0000_1013,
        Op::Srli => 0x0000_5013,
        Op::Srai => 0x4000_5013,
        Op::Add => 0x0000_0033,
        Op::Sub => 0x4000_0033,
        Op::Sll => 0x0000_1033,
        Op::Slt => 0x0000_2033,
        Op::Sltu => 0x0000_3033,
        Op::Xor => 0x0000_4033,
        Op::Srl => 0x0000_5033,
        Op::Sra => 0x4000_5033,
        Op::Or => 0x0000_6033,
        Op::And => 0x0000_7033,
        Op::Mul => 0x0200_0033,
        Op::Mulh => 0x0200_1033,
        Op::Mulhsu => 0x0200_2033,
        Op::Mulhu => 0x0200_3033,
        Op::Div => 0x0200_4033,
        Op::Divu => 0x0200_5033,
        Op::Rem => 0x0200_6033,
        Op::Remu => 0x0200_7033,
        Op::Fence => 0x0000_000F,
        Op::Ebreak => 0x0000_0073,
    }
}

/// rd, rs1, rs2 and the immediate in their places.
fn placed(format: Format, rd: u8, rs1: u8, rs2: u8, imm: u32) -> u32
    ensures { result ≡ assembled format rd rs1 rs2 imm }
{
    let rd = rd_bits(rd);
    let rs1 = rs1_bits(rs1);
    let rs2 = rs2_bits(rs2);
    match format {
        Format::Register => rd + rs1 + rs2,
        Format::Immediate | Format::Order => rd + rs1 + imm % 4096 * 1048576,
        Format::Shift => rd + rs1 + imm % 32 * 1048576,
        Format::Store => rs1 + rs2 + imm % 32 * 128 + imm / 32 % 128 * 33554432,
        Format::Branch => rs1 + rs2 + branch_offset_bits(imm),
        Format::Upper => rd + imm % 1048576 * 4096,
        Format::Jump => rd + jump_offset_bits(imm),
        Format::Whole => 1048576,
    }
}

fn word_of(i: Instr) -> u32
    ensures { result ≡ encoded (line_of i) }
{
    let fields = placed(i.op.format(), i.rd, i.rs1, i.rs2, i.imm.cast_unsigned());
    code_word(i.op).wrapping_add(fields)
}

/// The word of an instruction: the one word that `decode` takes to it.
pub fn encode(i: Instr) -> u32
    ensures decodes { decode result ≡ Some (line_of i) }
    ensures only { (w : ℕ) → w < 2 ^ 32 → decode w ≡ Some (line_of i) → w ≡ result }
{
    word_of(i)
}
