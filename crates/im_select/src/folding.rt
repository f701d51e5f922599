ghost use Rattle.std.specs.Prelude.{◌≡◌, ◌<◌, ◌≤◌, ◌+◌, ◌++◌, ◌∷◌, [], All, pos, drop, length};
ghost use Rattle.std.specs.Prelude.{option_map, get_or, OnOk};
ghost use Rattle.im_num.specs.Kinds as kinds;
ghost use Rattle.im_rv.specs.declared.format.Format.TheVariants.{Immediate, Shift};
ghost use Rattle.im_rv.specs.Formats.{format_of};
ghost use Rattle.im_rv.specs.Lines.{code_lines, line_of};
ghost use Rattle.im_block.specs.declared.code.Line.TheVariants.{Put};
ghost use Rattle.im_alloc_placed.specs.Placed.{IsPlacedLine};
ghost use Rattle.im_alloc_relation.specs.Live.{place_uses};
ghost use Rattle.im_live.specs.Words.{has, IsMachineLine};
ghost use Rattle.im_select.specs.Given.{given};
ghost use Rattle.im_select.specs.Places.{at_of, HasPlaces, CallsBelow};
ghost use Rattle.im_select_relation.specs.OperatorTables.{commutes};
ghost use Rattle.im_select.specs.Emitted.{by_low, by_bits, negated, immediate_line, constant_line};
ghost use Rattle.im_select.specs.Emitted.{is_spent, is_taken, passed_to, passed_by, constant_code};
ghost use Rattle.im_select.specs.Emitted.{moved_code, put_code, operated_code, stored_from};
ghost use Rattle.im_select.specs.Emitted.{way_code, behind_at};

use crate::branching::lives;
use crate::comparing::{constant_comparison, push_compared_with};
use crate::computing::{by_sign, push_computed};
use crate::lines::push_line;
use crate::memory::push_write;
use crate::names::Names;
use crate::push::{push, with_immediate};
use crate::words::{high_part, low_part, push_constant, register, to_word};
use im_block::{Line as Placed, Place};
use im_num::{Kind, NoMemory};
use im_rv::assembler::addi;
use im_rv::{Instr, Line, Op};
use im_store::BinaryOp;

/// A constant that a line puts into a register.
#[derive(Clone, Copy)]
pub struct Constant {
    /// Its register.
    pub register: u32,
    /// Its word.
    pub word: u32,
}

/// An instruction with an immediate of 12 bits, if a word is one with its sign (RISC-V Unprivileged
/// ISA, 2.4).
pub(crate) fn by_low(op: Op, to: u32, left: u32, word: u32) -> Option<Instr>
    requires form { format_of op ≡ Immediate }
    requires to { to < 32 }
    requires left { left < 32 }
    ensures { option_map line_of result ≡ by_low op to left word }
{
    if high_part(word) == 0 {
        Some(with_immediate(op, register(to), register(left), low_part(word)))
    } else {
        None
    }
}

/// A shift by so many bits, if they are less than 32 (RISC-V Unprivileged ISA, 2.4).
fn by_bits(op: Op, to: u32, left: u32, bits: u32) -> Option<Instr>
    requires form { format_of op ≡ Shift }
    requires to { to < 32 }
    requires left { left < 32 }
    ensures { option_map line_of result ≡ by_bits op to left bits }
{
    if bits < 32 {
        Some(with_immediate(op, register(to), register(left), bits as i32))
    } else {
        None
    }
}

/// The word of a number with the contrary sign.
pub(crate) fn negated(word: u32) -> u32
    ensures { result ≡ negated word }
{
    word.wrapping_neg()
}

/// An operator with a word on its right as one instruction, if there is one.
fn immediate(to: u32, op: BinaryOp, kind: Kind, left: u32, word: u32) -> Option<Instr>
    requires to { to < 32 }
    requires left { left < 32 }
    ensures { option_map line_of result ≡ immediate_line to op kind left word }
{
    match op {
        BinaryOp::Add => by_low(Op::Addi, to, left, word),
        BinaryOp::Subtract => by_low(Op::Addi, to, left, negated(word)),
        BinaryOp::BitAnd => by_low(Op::Andi, to, left, word),
        BinaryOp::BitOr => by_low(Op::Ori, to, left, word),
        BinaryOp::BitXor => by_low(Op::Xori, to, left, word),
        BinaryOp::ShiftLeft => by_bits(Op::Slli, to, left, word),
        BinaryOp::ShiftRight => by_bits(by_sign(kind, Op::Srai, Op::Srli), to, left, word),
        BinaryOp::Multiply | BinaryOp::Divide | BinaryOp::Remainder => None,
    }
}

/// Whether the operands of an operator may change places.
fn commutes(op: BinaryOp) -> bool
    ensures { result ≡ commutes op }
{
    match op {
        BinaryOp::Add | BinaryOp::Multiply => true,
        BinaryOp::BitAnd | BinaryOp::BitOr | BinaryOp::BitXor => true,
        BinaryOp::Subtract | BinaryOp::Divide | BinaryOp::Remainder => false,
        BinaryOp::ShiftLeft | BinaryOp::ShiftRight => false,
    }
}

/// An operator with a constant in one of its two registers as one instruction, if there is one.
fn constant_operand(
    to: u32,
    op: BinaryOp,
    kind: Kind,
    left: u32,
    right: u32,
    constant: Constant,
) -> Option<Instr>
    requires to { to < 32 }
    requires left { left < 32 }
    requires right { right < 32 }
    ensures { option_map line_of result ≡ constant_line to op kind left right constant }
{
    if right == constant.register {
        if left == constant.register {
            return None;
        }
        return immediate(to, op, kind, left, constant.word);
    }
    if left == constant.register && commutes(op) {
        return immediate(to, op, kind, right, constant.word);
    }
    None
}

/// Whether a place is behind a pointer in a register.
fn place_uses(place: Place, register: u32) -> bool
    ensures { result ≡ place_uses place register }
{
    match place {
        Place::Static { .. } | Place::Local { .. } => false,
        Place::Through { pointer, .. } => register == pointer,
    }
}

/// Whether a register isn't read behind a line that sets `to`. `behind` has the registers that live
/// there.
fn is_spent(behind: u32, to: u32, register: u32) -> bool
    requires { register < 32 }
    ensures { result ≡ is_spent (has behind) to register }
{
    register == to || !lives(behind, register)
}

/// Whether a line takes the constant before it, as its immediate, or as x0 a stored 0, where nothing
/// reads the constant's register behind the line. `behind` has the registers that live there.
fn is_taken(behind: u32, constant: Constant, user: Placed) -> bool
    requires constant { constant.register < 32 }
    requires machine { IsMachineLine user }
    ensures { result ≡ is_taken (has behind) constant user }
{
    let register = constant.register;
    match user {
        Placed::Compute {
            to,
            op,
            kind,
            left,
            right,
        } => {
            let one = constant_operand(to, op, kind, left, right, constant);
            one.is_some() && is_spent(behind, to, register)
        }
        Placed::Compare {
            to,
            op,
            kind,
            left,
            right,
        } => {
            let one = constant_comparison(to, op, kind, left, right, constant);
            one.is_some() && is_spent(behind, to, register)
        }
        Placed::Write { place, from, .. } => {
            let read = place_uses(place, register) || lives(behind, register);
            constant.word == 0 && from == register && !read
        }
        _ => false,
    }
}

/// A constant, where the next line takes it.
fn passed_to(behind: u32, constant: Constant, user: Placed) -> Option<Constant>
    requires constant { constant.register < 32 }
    requires machine { IsMachineLine user }
    ensures { result ≡ passed_to (has behind) constant (user ∷ []) }
{
    if is_taken(behind, constant, user) {
        Some(constant)
    } else {
        None
    }
}

/// What a line passes to the next, if there is one: a constant that it takes. `behind` has the
/// registers that live behind the next.
fn passed_on(behind: u32, line: Placed, user: Placed) -> Option<Constant>
    requires line { IsMachineLine line }
    requires user { IsMachineLine user }
    ensures { result ≡ passed_by (has behind) line (user ∷ []) }
{
    match line {
        Placed::Put { to, number } => {
            let constant = Constant {
                register: to,
                word: to_word(number),
            };
            passed_to(behind, constant, user)
        }
        Placed::PutNull { to } => {
            let constant = Constant {
                register: to,
                word: 0,
            };
            passed_to(behind, constant, user)
        }
        _ => None,
    }
}

/// What a line passes to the next, by its number. A word of `points` has the registers that live
/// before a line.
pub(crate) fn passed_by(points: &[u32], placed: &[Placed], number: usize) -> Option<Constant>
    requires there { number < length placed.now }
    requires enough { length placed.now + 1 ≤ length points.now }
    requires machine { All IsMachineLine placed.now }
    ensures { result ≡ passed_by (behind_at points.now (number + 1))
        (get_or placed.now number (Put 0 (pos 0))) (drop (number + 1) placed.now) }
{
    if number + 1 < placed.len() {
        passed_on(points[number + 2], placed[number], placed[number + 1])
    } else {
        None
    }
}

/// A number, unless it is passed on.
fn push_put(
    lines: &mut Vec<Line>,
    passed: Option<Constant>,
    to: u32,
    number: i128,
) -> Result<(), NoMemory>
    requires { to < 32 }
    ensures { OnOk result (code_lines lines.new.items
        ≡ code_lines lines.old.items ++ put_code passed (constant_code to (kinds.word number))) }
{
    match passed {
        Some(_) => Ok(()),
        None => push_constant(lines, register(to), to_word(number)),
    }
}

/// A null pointer, unless it is passed on.
fn push_null(lines: &mut Vec<Line>, passed: Option<Constant>, to: u32) -> Result<(), NoMemory>
    requires { to < 32 }
    ensures { OnOk result (code_lines lines.new.items
        ≡ code_lines lines.old.items ++ put_code passed (moved_code to 0)) }
{
    match passed {
        Some(_) => Ok(()),
        None => push(lines, addi(register(to), 0, 0)),
    }
}

/// An operator, by one instruction where one of its sides is a constant that the line before it
/// passed.
fn push_operated(
    lines: &mut Vec<Line>,
    before: Option<Constant>,
    to: u32,
    op: BinaryOp,
    kind: Kind,
    left: u32,
    right: u32,
) -> Result<(), NoMemory>
    requires to { to < 32 }
    requires left { left < 32 }
    requires right { right < 32 }
    ensures { OnOk result (code_lines lines.new.items
        ≡ code_lines lines.old.items ++ operated_code before to op kind left right) }
{
    if let Some(constant) = before {
        if let Some(instr) = constant_operand(to, op, kind, left, right, constant) {
            return push(lines, instr);
        }
    }
    push_computed(lines, to, op, kind, left, right)
}

/// The register that is stored, or x0 for a zero that the line before it passed.
fn stored_from(before: Option<Constant>, from: u32) -> u32
    requires { from < 32 }
    ensures value { result ≡ stored_from before from }
    ensures small { result < 32 }
{
    match before {
        Some(_) => 0,
        None => from,
    }
}

/// The lines of one line of placed code, which passes a constant to the next and takes one of the
/// line before it. A cut has the entry.
pub(crate) fn push_way(
    lines: &mut Vec<Line>,
    names: &Names,
    entry: u32,
    passed: Option<Constant>,
    before: Option<Constant>,
    line: Placed,
) -> Result<(), NoMemory>
    requires places { HasPlaces (given names.now) }
    requires placed { IsPlacedLine (length names.now.statics.now) names.now.function.now line }
    requires called { CallsBelow names.now.functions line }
    ensures { OnOk result (code_lines lines.new.items ≡ code_lines lines.old.items
        ++ way_code (at_of (given names.now)) entry passed before line) }
{
    match line {
        Placed::Put { to, number } => push_put(lines, passed, to, number),
        Placed::PutNull { to } => push_null(lines, passed, to),
        Placed::Compute {
            to,
            op,
            kind,
            left,
            right,
        } => { push_operated(lines, before, to, op, kind, left, right) }
        Placed::Compare {
            to,
            op,
            kind,
            left,
            right,
        } => { push_compared_with(lines, before, to, op, kind, left, right) }
        Placed::Write {
            place,
            kind,
            from,
            access,
        } => { push_write(lines, names, place, kind, stored_from(before, from), access) }
        _ => push_line(lines, names, entry, line),
    }
}
