ghost use Rattle.std.specs.Prelude.{◌≡◌, ◌<◌, ◌^◌, ◌*◌, ◌+◌, ◌/◌, ◌%◌, MatchOption, Some, None};
ghost use Rattle.std.specs.Prelude.{IsTrue};
ghost use Rattle.im_rv.specs.Formats.{format_of};
ghost use Rattle.im_rv.specs.Decode.{bits, fields, op_of, op_in, decode as decoded_word};
ghost use Rattle.im_rv.specs.Fits.{in_signed, is_even};
ghost use Rattle.im_rv.specs.Steps.{word, signed_bits};
ghost use Rattle.im_rv.specs.Lines.{line_of};

use crate::format::Format;
use crate::instr::{Instr, Op};

/// The word of `ebreak`.
pub(crate) const EBREAK: u32 = 0x0010_0073;

fn branch_op(funct3: u32, funct7: u32) -> Option<Op>
    ensures { result ≡ op_of 0x63 funct3 funct7 }
{
    match funct3 {
        0 => Some(Op::Beq),
        1 => Some(Op::Bne),
        4 => Some(Op::Blt),
        5 => Some(Op::Bge),
        6 => Some(Op::Bltu),
        7 => Some(Op::Bgeu),
        _ => None,
    }
}

fn load_op(funct3: u32, funct7: u32) -> Option<Op>
    ensures { result ≡ op_of 0x03 funct3 funct7 }
{
    match funct3 {
        0 => Some(Op::Lb),
        1 => Some(Op::Lh),
        2 => Some(Op::Lw),
        4 => Some(Op::Lbu),
        5 => Some(Op::Lhu),
        _ => None,
    }
}

fn store_op(funct3: u32, funct7: u32) -> Option<Op>
    ensures { result ≡ op_of 0x23 funct3 funct7 }
{
    match funct3 {
        0 => Some(Op::Sb),
        1 => Some(Op::Sh),
        2 => Some(Op::Sw),
        _ => None,
    }
}

fn immediate_op(funct3: u32, funct7: u32) -> Option<Op>
    ensures { result ≡ op_of 0x13 funct3 funct7 }
{
    match (funct3, funct7) {
        (0, _) => Some(Op::Addi),
        (1, 0) => Some(Op::Slli),
        (2, _) => Some(Op::Slti),
        (3, _) => Some(Op::Sltiu),
        (4, _) => Some(Op::Xori),
        (5, 0) => Some(Op::Srli),
        (5, 32) => Some(Op::Srai),
        (6, _) => Some(Op::Ori),
        (7, _) => Some(Op::Andi),
        _ => None,
    }
}

fn plain_op(funct3: u32) -> Option<Op>
    ensures { result ≡ op_of 0x33 funct3 0 }
{
    match funct3 {
        0 => Some(Op::Add),
        1 => Some(Op::Sll),
        2 => Some(Op::Slt),
        3 => Some(Op::Sltu),
        4 => Some(Op::Xor),
        5 => Some(Op::Srl),
        6 => Some(Op::Or),
        7 => Some(Op::And),
        _ => None,
    }
}

fn product_op(funct3: u32) -> Option<Op>
    ensures { result ≡ op_of 0x33 funct3 1 }
{
    match funct3 {
        0 => Some(Op::Mul),
        1 => Some(Op::Mulh),
        2 => Some(Op::Mulhsu),
        3 => Some(Op::Mulhu),
        4 => Some(Op::Div),
        5 => Some(Op::Divu),
        6 => Some(Op::Rem),
        7 => Some(Op::Remu),
        _ => None,
    }
}

fn register_op(funct3: u32, funct7: u32) -> Option<Op>
    ensures { result ≡ op_of 0x33 funct3 funct7 }
{
    match funct7 {
        0 => plain_op(funct3),
        1 => product_op(funct3),
        32 => match funct3 {
            0 => Some(Op::Sub),
            5 => Some(Op::Sra),
            _ => None,
        },
        _ => None,
    }
}

fn operation(opcode: u32, funct3: u32, funct7: u32) -> Option<Op>
    ensures { result ≡ op_of opcode funct3 funct7 }
{
    match opcode {
        0x03 => load_op(funct3, funct7),
        0x0F => if funct3 == 0 { Some(Op::Fence) } else { None },
        0x13 => immediate_op(funct3, funct7),
        0x17 => Some(Op::Auipc),
        0x23 => store_op(funct3, funct7),
        0x33 => register_op(funct3, funct7),
        0x37 => Some(Op::Lui),
        0x63 => branch_op(funct3, funct7),
        0x67 => if funct3 == 0 { Some(Op::Jalr) } else { None },
        0x6F => Some(Op::Jal),
        _ => None,
    }
}

fn register(w: u32, at: u32) -> u8
    requires { at < 32 }
    ensures value { result ≡ bits w at 5 }
    ensures below { result < 32 }
{
    ((w >> at) % 32) as u8
}

fn signed_12(v: u32) -> i32
    requires { v < 4096 }
    ensures word { word result ≡ signed_bits 12 v }
    ensures fits { IsTrue (in_signed 11 result) }
{
    let word = if v < 2048 { v } else { v + 0xFFFF_F000 };
    word.cast_signed()
}

fn signed_13(v: u32) -> i32
    requires below { v < 8192 }
    requires even { v % 2 ≡ 0 }
    ensures word { word result ≡ signed_bits 13 v }
    ensures fits { IsTrue (in_signed 12 result) }
    ensures even { IsTrue (is_even result) }
{
    let word = if v < 4096 { v } else { v + 0xFFFF_E000 };
    word.cast_signed()
}

fn signed_21(v: u32) -> i32
    requires below { v < 2097152 }
    requires even { v % 2 ≡ 0 }
    ensures word { word result ≡ signed_bits 21 v }
    ensures fits { IsTrue (in_signed 20 result) }
    ensures even { IsTrue (is_even result) }
{
    let word = if v < 1048576 { v } else { v + 0xFFE0_0000 };
    word.cast_signed()
}

fn register_format(op: Op, w: u32) -> Instr
    requires { format_of op ≡ Format.Register }
    ensures { line_of result ≡ fields Format.Register op w }
{
    Instr {
        op,
        rd: register(w, 7),
        rs1: register(w, 15),
        rs2: register(w, 20),
        imm: 0,
    }
}

fn immediate_format(op: Op, w: u32) -> Instr
    requires { format_of op ≡ Format.Immediate }
    ensures { line_of result ≡ fields Format.Immediate op w }
{
    Instr {
        op,
        rd: register(w, 7),
        rs1: register(w, 15),
        rs2: 0,
        imm: signed_12((w >> 20) % 4096),
    }
}

fn shift_format(op: Op, w: u32) -> Instr
    requires { format_of op ≡ Format.Shift }
    ensures { line_of result ≡ fields Format.Shift op w }
{
    Instr {
        op,
        rd: register(w, 7),
        rs1: register(w, 15),
        rs2: 0,
        imm: ((w >> 20) % 32).cast_signed(),
    }
}

fn store_format(op: Op, w: u32) -> Instr
    requires { format_of op ≡ Format.Store }
    ensures { line_of result ≡ fields Format.Store op w }
{
    Instr {
        op,
        rd: 0,
        rs1: register(w, 15),
        rs2: register(w, 20),
        imm: signed_12((w >> 25) % 128 * 32 + (w >> 7) % 32),
    }
}

fn branch_offset(w: u32) -> u32
    ensures value { result ≡ bits w 31 1 * 4096 + bits w 7 1 * 2048 + bits w 25 6 * 32 + bits w 8 4
        * 2 }
    ensures below { result < 8192 }
    ensures even { result % 2 ≡ 0 }
{
    (w >> 31) % 2 * 4096 + (w >> 7) % 2 * 2048 + (w >> 25) % 64 * 32 + (w >> 8) % 16 * 2
}

fn branch_format(op: Op, w: u32) -> Instr
    requires { format_of op ≡ Format.Branch }
    ensures { line_of result ≡ fields Format.Branch op w }
{
    Instr {
        op,
        rd: 0,
        rs1: register(w, 15),
        rs2: register(w, 20),
        imm: signed_13(branch_offset(w)),
    }
}

fn upper_format(op: Op, w: u32) -> Instr
    requires { format_of op ≡ Format.Upper }
    ensures { line_of result ≡ fields Format.Upper op w }
{
    Instr {
        op,
        rd: register(w, 7),
        rs1: 0,
        rs2: 0,
        imm: ((w >> 12) % 1048576).cast_signed(),
    }
}

fn jump_offset(w: u32) -> u32
    ensures value { result ≡ bits w 31 1 * 1048576 + bits w 12 8 * 4096 + bits w 20 1 * 2048 + bits
        w 21 10 * 2 }
    ensures below { result < 2097152 }
    ensures even { result % 2 ≡ 0 }
{
    (w >> 31) % 2 * 1048576 + (w >> 12) % 256 * 4096 + (w >> 20) % 2 * 2048 + (w >> 21) % 1024 * 2
}

fn jump_format(op: Op, w: u32) -> Instr
    requires { format_of op ≡ Format.Jump }
    ensures { line_of result ≡ fields Format.Jump op w }
{
    Instr {
        op,
        rd: register(w, 7),
        rs1: 0,
        rs2: 0,
        imm: signed_21(jump_offset(w)),
    }
}

fn order_format(op: Op, w: u32) -> Instr
    requires { format_of op ≡ Format.Order }
    ensures { line_of result ≡ fields Format.Order op w }
{
    Instr {
        op,
        rd: register(w, 7),
        rs1: register(w, 15),
        rs2: 0,
        imm: ((w >> 20) % 4096).cast_signed(),
    }
}

fn whole_format(op: Op, w: u32) -> Instr
    requires { format_of op ≡ Format.Whole }
    ensures { line_of result ≡ fields Format.Whole op w }
{
    Instr {
        op,
        rd: 0,
        rs1: 0,
        rs2: 0,
        imm: 0,
    }
}

fn instruction(op: Op, w: u32) -> Instr
    ensures { line_of result ≡ fields (format_of op) op w }
{
    match op.format() {
        Format::Register => register_format(op, w),
        Format::Immediate => immediate_format(op, w),
        Format::Shift => shift_format(op, w),
        Format::Store => store_format(op, w),
        Format::Branch => branch_format(op, w),
        Format::Upper => upper_format(op, w),
        Format::Jump => jump_format(op, w),
        Format::Order => order_format(op, w),
        Format::Whole => whole_format(op, w),
    }
}

fn operation_of(w: u32) -> Option<Op>
    ensures { result ≡ op_in w }
{
    if w == EBREAK {
        Some(Op::Ebreak)
    } else {
        operation(w % 128, (w >> 12) % 8, (w >> 25) % 128)
    }
}

/// The instruction that a word stands for; none where the table of operations has no row for it.
pub fn decode(w: u32) -> Option<Instr>
    ensures { MatchOption result (decoded_word w ≡ None) (λ i. decoded_word w ≡ Some (line_of i)) }
{
    match operation_of(w) {
        None => None,
        Some(op) => Some(instruction(op, w)),
    }
}
