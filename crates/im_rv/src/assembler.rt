//! The instructions by their names in the manual's assembly text, with the operands in its order.
//! An immediate is in bytes for offsets, the 20-bit field for `lui` and `auipc`, else a number.

pub use crate::computation::{
    add, addi, and, andi, auipc, div, divu, lui, mul, mulh, mulhsu, mulhu, or, ori, rem, remu, sll,
    slli, slt, slti, sltiu, sltu, sra, srai, srl, srli, sub, xor, xori,
};
pub use crate::transfer::{
    beq, bge, bgeu, blt, bltu, bne, ebreak, fence, jal, jalr, lb, lbu, lh, lhu, lw, sb, sh, sw,
};
