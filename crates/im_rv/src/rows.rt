ghost use Rattle.std.specs.Prelude.{◌≡◌};
ghost use Rattle.im_rv.specs.Steps.{row};

use crate::arithmetic::{
    divided, divided_unsigned, flag, is_less_signed, rest, rest_unsigned, shifted_left,
    shifted_right, shifted_right_signed, upper_product, upper_product_mixed, upper_product_signed,
};
use crate::effect::{Effect, Extension};
use crate::instr::Op;

fn puts(value: u32, next: u32) -> Effect
    ensures { result ≡ Effect.Puts value next }
{
    Effect::Puts { value, next }
}

fn goes(next: u32) -> Effect
    ensures { result ≡ Effect.Goes next }
{
    Effect::Goes { next }
}

fn loads(address: u32, size: u32, extension: Extension) -> Effect
    ensures { result ≡ Effect.Loads address size extension }
{
    Effect::Loads {
        address,
        size,
        extension,
    }
}

fn stores(address: u32, size: u32, value: u32) -> Effect
    ensures { result ≡ Effect.Stores address size value }
{
    Effect::Stores {
        address,
        size,
        value,
    }
}

/// What an operation does at `pc`, with `a` and `b` in the registers that rs1 and rs2 name.
#[inline(always)]
pub(crate) fn row_of(op: Op, pc: u32, a: u32, b: u32, imm: u32) -> Effect
    ensures { result ≡ row op pc a b imm }
{
    let next = pc.wrapping_add(4);
    let target = pc.wrapping_add(imm);
    let address = a.wrapping_add(imm);
    match op {
        Op::Lui => puts(imm.wrapping_mul(4096), next),
        Op::Auipc => puts(pc.wrapping_add(imm.wrapping_mul(4096)), next),
        Op::Jal => puts(next, target),
        Op::Jalr => puts(next, address - address % 2),
        Op::Beq => goes(if a == b { target } else { next }),
        Op::Bne => goes(if a == b { next } else { target }),
        Op::Blt => goes(if is_less_signed(a, b) { target } else { next }),
        Op::Bge => goes(if is_less_signed(a, b) { next } else { target }),
        Op::Bltu => goes(if a < b { target } else { next }),
        Op::Bgeu => goes(if a < b { next } else { target }),
        Op::Lb => loads(address, 1, Extension::Sign),
        Op::Lh => loads(address, 2, Extension::Sign),
        Op::Lw => loads(address, 4, Extension::Zero),
        Op::Lbu => loads(address, 1, Extension::Zero),
        Op::Lhu => loads(address, 2, Extension::Zero),
        Op::Sb => stores(address, 1, b),
        Op::Sh => stores(address, 2, b),
        Op::Sw => stores(address, 4, b),
        Op::Addi => puts(address, next),
        Op::Slti => puts(flag(is_less_signed(a, imm)), next),
        Op::Sltiu => puts(flag(a < imm), next),
        Op::Xori => puts(a ^ imm, next),
        Op::Ori => puts(a | imm, next),
        Op::Andi => puts(a & imm, next),
        Op::Slli => puts(shifted_left(a, imm), next),
        Op::Srli => puts(shifted_right(a, imm), next),
        Op::Srai => puts(shifted_right_signed(a, imm), next),
        Op::Add => puts(a.wrapping_add(b), next),
        Op::Sub => puts(a.wrapping_sub(b), next),
        Op::Sll => puts(shifted_left(a, b), next),
        Op::Slt => puts(flag(is_less_signed(a, b)), next),
        Op::Sltu => puts(flag(a < b), next),
        Op::Xor => puts(a ^ b, next),
        Op::Srl => puts(shifted_right(a, b), next),
        Op::Sra => puts(shifted_right_signed(a, b), next),
        Op::Or => puts(a | b, next),
        Op::And => puts(a & b, next),
        Op::Mul => puts(a.wrapping_mul(b), next),
        Op::Mulh => puts(upper_product_signed(a, b), next),
        Op::Mulhsu => puts(upper_product_mixed(a, b), next),
        Op::Mulhu => puts(upper_product(a, b), next),
        Op::Div => puts(divided(a, b), next),
        Op::Divu => puts(divided_unsigned(a, b), next),
        Op::Rem => puts(rest(a, b), next),
        Op::Remu => puts(rest_unsigned(a, b), next),
        Op::Fence => goes(next),
        Op::Ebreak => Effect::Stops,
    }
}
