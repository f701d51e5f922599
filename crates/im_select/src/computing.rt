ghost use Rattle.std.specs.Prelude.{◌≡◌, ◌<◌, ◌++◌, OnOk, IfOk, IfSome};
ghost use Rattle.im_num.specs.Kinds as kinds;
ghost use Rattle.im_rv.specs.declared.format.Format.TheVariants.{Register};
ghost use Rattle.im_rv.specs.Formats.{format_of};
ghost use Rattle.im_rv.specs.Lines.{code_lines};
ghost use Rattle.im_select_relation.specs.OperatorTables as tables;
ghost use Rattle.im_select_relation.specs.OperatorTables.{operation, less_op};
ghost use Rattle.im_select.specs.Emitted.{copied_code, converted_code, shifted_code, shift_of};
ghost use Rattle.im_select.specs.Emitted.{shifts_code, scaled_code, scaled_register, unary_code};
ghost use Rattle.im_select.specs.Emitted.{not_code, computed_code, less_code, not_less_code};
ghost use Rattle.im_select.specs.Emitted.{compared_code, pointer_code, distance_code};

use crate::push::{on_registers, push, with_immediate};
use crate::words::{push_constant, register};
use im_num::{Kind, NoMemory};
use im_rv::assembler::{addi, andi, div, mul, slli, sltiu, sltu, srai, srli, sub, xori};
use im_rv::{Line, Op};
use im_store::{BinaryOp, Comparison, UnaryOp};

/// Copies a register; to itself by no line.
pub(crate) fn push_copy(lines: &mut Vec<Line>, to: u32, from: u32) -> Result<(), NoMemory>
    requires to { to < 32 }
    requires from { from < 32 }
    ensures { OnOk result (code_lines lines.new.items
        ≡ code_lines lines.old.items ++ copied_code to from) }
{
    if to == from {
        return Ok(());
    }
    push(lines, addi(register(to), register(from), 0))
}

/// Brings a value into a kind of 8 or 16 bits: shifted up, and down again.
fn push_narrowed(
    lines: &mut Vec<Line>,
    to: u32,
    bits: u8,
    is_signed: bool,
    from: u32,
) -> Result<(), NoMemory>
    requires to { to < 32 }
    requires from { from < 32 }
    requires bits { bits < 32 }
    ensures { OnOk result (code_lines lines.new.items
        ≡ code_lines lines.old.items ++ shifted_code to bits is_signed from) }
{
    let to = register(to);
    push(lines, slli(to, register(from), i32::from(bits)))?;
    if is_signed {
        push(lines, srai(to, to, i32::from(bits)))
    } else {
        push(lines, srli(to, to, i32::from(bits)))
    }
}

/// Brings a value into an integer kind (C11 6.3.1.3).
pub(crate) fn push_converted(
    lines: &mut Vec<Line>,
    to: u32,
    kind: Kind,
    from: u32,
) -> Result<(), NoMemory>
    requires to { to < 32 }
    requires from { from < 32 }
    ensures { OnOk result (code_lines lines.new.items
        ≡ code_lines lines.old.items ++ converted_code to kind from) }
{
    match kind {
        Kind::I8 => push_narrowed(lines, to, 24, true, from),
        Kind::U8 => push(lines, andi(register(to), register(from), 255)),
        Kind::I16 => push_narrowed(lines, to, 16, true, from),
        Kind::U16 => push_narrowed(lines, to, 16, false, from),
        Kind::I32 | Kind::U32 | Kind::Ptr => push_copy(lines, to, from),
    }
}

/// An operator on one value (C11 6.5.3.3).
pub(crate) fn push_unary(
    lines: &mut Vec<Line>,
    to: u32,
    op: UnaryOp,
    from: u32,
) -> Result<(), NoMemory>
    requires to { to < 32 }
    requires from { from < 32 }
    ensures { OnOk result (code_lines lines.new.items
        ≡ code_lines lines.old.items ++ unary_code to op from) }
{
    match op {
        UnaryOp::Negate => push(lines, sub(register(to), 0, register(from))),
        UnaryOp::Complement => push(lines, xori(register(to), register(from), -1)),
    }
}

/// 1 where a register is 0, else 0.
pub(crate) fn push_not(lines: &mut Vec<Line>, to: u32, from: u32) -> Result<(), NoMemory>
    requires to { to < 32 }
    requires from { from < 32 }
    ensures { OnOk result (code_lines lines.new.items
        ≡ code_lines lines.old.items ++ not_code to from) }
{
    push(lines, sltiu(register(to), register(from), 1))
}

/// Whether operations on a kind look at signs.
pub(crate) fn is_signed(kind: Kind) -> bool
    ensures { result ≡ kinds.is_signed kind }
{
    matches!(kind, Kind::I8 | Kind::I16 | Kind::I32)
}

/// One of two operations, by the sign of a kind.
pub(crate) fn by_sign(kind: Kind, signed: Op, unsigned: Op) -> Op
    ensures { result ≡ tables.by_sign kind signed unsigned }
{
    if is_signed(kind) { signed } else { unsigned }
}

/// The operation of an operator on two values.
fn operation_of(op: BinaryOp, kind: Kind) -> Op
    ensures value { result ≡ operation op kind }
    ensures form { format_of result ≡ Register }
{
    match op {
        BinaryOp::Add => Op::Add,
        BinaryOp::Subtract => Op::Sub,
        BinaryOp::Multiply => Op::Mul,
        BinaryOp::Divide => by_sign(kind, Op::Div, Op::Divu),
        BinaryOp::Remainder => by_sign(kind, Op::Rem, Op::Remu),
        BinaryOp::BitAnd => Op::And,
        BinaryOp::BitOr => Op::Or,
        BinaryOp::BitXor => Op::Xor,
        BinaryOp::ShiftLeft => Op::Sll,
        BinaryOp::ShiftRight => by_sign(kind, Op::Sra, Op::Srl),
    }
}

/// An operator on two values (C11 6.5.5 to 6.5.12).
pub(crate) fn push_computed(
    lines: &mut Vec<Line>,
    to: u32,
    op: BinaryOp,
    kind: Kind,
    left: u32,
    right: u32,
) -> Result<(), NoMemory>
    requires to { to < 32 }
    requires left { left < 32 }
    requires right { right < 32 }
    ensures { OnOk result (code_lines lines.new.items
        ≡ code_lines lines.old.items ++ computed_code to op kind left right) }
{
    push(
        lines,
        on_registers(
            operation_of(op, kind),
            register(to),
            register(left),
            register(right),
        ),
    )
}

/// 1 where the first of two registers is less, else 0.
fn push_less(
    lines: &mut Vec<Line>,
    to: u32,
    kind: Kind,
    left: u32,
    right: u32,
) -> Result<(), NoMemory>
    requires to { to < 32 }
    requires left { left < 32 }
    requires right { right < 32 }
    ensures { OnOk result (code_lines lines.new.items
        ≡ code_lines lines.old.items ++ less_code to (less_op kind) left right) }
{
    push(
        lines,
        on_registers(
            by_sign(kind, Op::Slt, Op::Sltu),
            register(to),
            register(left),
            register(right),
        ),
    )
}

/// 0 where the first of two registers is less, else 1.
fn push_not_less(
    lines: &mut Vec<Line>,
    to: u32,
    kind: Kind,
    left: u32,
    right: u32,
) -> Result<(), NoMemory>
    requires to { to < 32 }
    requires left { left < 32 }
    requires right { right < 32 }
    ensures { OnOk result (code_lines lines.new.items
        ≡ code_lines lines.old.items ++ not_less_code to (less_op kind) left right) }
{
    push_less(lines, to, kind, left, right)?;
    push(lines, xori(register(to), register(to), 1))
}

/// 1 where two values compare so, else 0 (C11 6.5.8, 6.5.9); x5 is used.
pub(crate) fn push_compared(
    lines: &mut Vec<Line>,
    to: u32,
    op: Comparison,
    kind: Kind,
    left: u32,
    right: u32,
) -> Result<(), NoMemory>
    requires to { to < 32 }
    requires left { left < 32 }
    requires right { right < 32 }
    ensures { OnOk result (code_lines lines.new.items
        ≡ code_lines lines.old.items ++ compared_code to (less_op kind) left right op) }
{
    match op {
        Comparison::Less => push_less(lines, to, kind, left, right),
        Comparison::Greater => push_less(lines, to, kind, right, left),
        Comparison::LessOrEqual => push_not_less(lines, to, kind, right, left),
        Comparison::GreaterOrEqual => push_not_less(lines, to, kind, left, right),
        Comparison::Equal => {
            push(lines, sub(5, register(left), register(right)))?;
            push(lines, sltiu(register(to), 5, 1))
        }
        Comparison::NotEqual => {
            push(lines, sub(5, register(left), register(right)))?;
            push(lines, sltu(register(to), 0, 5))
        }
    }
}

/// The bits by which a shift multiplies by `size`, if that is a power of two from 2 to 2^20.
fn shift_of(size: u32) -> Option<u32>
    ensures value { result ≡ shift_of size }
    ensures few { IfSome result (λ bits. bits < 32) }
{
    for bits in (1..21).rev() {
        if size == 1 << bits {
            return Some(bits);
        }
    }
    None
}

/// A number of elements of `size` bytes, more than one, comes into x5 as a number of bytes.
fn push_multiplied(lines: &mut Vec<Line>, size: u32, by: u8) -> Result<(), NoMemory>
    requires { by < 32 }
    ensures { OnOk result (code_lines lines.new.items
        ≡ code_lines lines.old.items ++ shifts_code (shift_of size) size by) }
{
    match shift_of(size) {
        Some(bits) => push(lines, slli(5, by, bits as i32)),
        None => {
            push_constant(lines, 5, size)?;
            push(lines, mul(5, 5, by))
        }
    }
}

/// A number of elements of `size` bytes as a number of bytes: the register that has it, `by` itself
/// or x5.
fn push_scaled(lines: &mut Vec<Line>, size: u32, by: u8) -> Result<u8, NoMemory>
    requires { by < 32 }
    ensures grows { OnOk result (code_lines lines.new.items
        ≡ code_lines lines.old.items ++ scaled_code size by) }
    ensures gives { IfOk result (λ register. register ≡ scaled_register size by) }
{
    if size == 1 {
        return Ok(by);
    }
    push_multiplied(lines, size, by)?;
    Ok(5)
}

/// A pointer moved by elements of `size` bytes (C11 6.5.6); x5 is used.
pub(crate) fn push_moved(
    lines: &mut Vec<Line>,
    to: u32,
    size: u32,
    back: bool,
    pointer: u32,
    by: u32,
) -> Result<(), NoMemory>
    requires to { to < 32 }
    requires pointer { pointer < 32 }
    requires by { by < 32 }
    ensures { OnOk result (code_lines lines.new.items
        ≡ code_lines lines.old.items ++ pointer_code to size back pointer by) }
{
    let step = if back { Op::Sub } else { Op::Add };
    let scaled = push_scaled(lines, size, register(by))?;
    push(
        lines,
        on_registers(step, register(to), register(pointer), scaled),
    )
}

/// The difference of two pointers, in elements of `size` bytes (C11 6.5.6); x5 and x6 are used.
pub(crate) fn push_distance(
    lines: &mut Vec<Line>,
    to: u32,
    size: u32,
    left: u32,
    right: u32,
) -> Result<(), NoMemory>
    requires to { to < 32 }
    requires left { left < 32 }
    requires right { right < 32 }
    ensures { OnOk result (code_lines lines.new.items
        ≡ code_lines lines.old.items ++ distance_code to size left right) }
{
    push(lines, sub(5, register(left), register(right)))?;
    push_constant(lines, 6, size)?;
    push(lines, div(register(to), 5, 6))
}
