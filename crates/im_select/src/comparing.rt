ghost use Rattle.std.specs.Prelude.{◌≡◌, ◌<◌, ◌++◌, option_map, OnOk};
ghost use Rattle.im_rv.specs.Lines.{code_lines, line_of};
ghost use Rattle.im_select_relation.specs.OperatorTables.{least};
ghost use Rattle.im_select.specs.Emitted.{above, below_line, equal_line, unequal_line};
ghost use Rattle.im_select.specs.Emitted.{comparison_line, comparison_rest, comparison_start};
ghost use Rattle.im_select.specs.Emitted.{compared_with_code};

use crate::computing::{by_sign, is_signed, push_compared};
use crate::folding::{Constant, by_low, negated};
use crate::push::push;
use crate::words::register;
use im_num::{Kind, NoMemory};
use im_rv::assembler::{sltiu, sltu, xori};
use im_rv::{Instr, Line, Op};
use im_store::Comparison;

/// The word below which no word of a kind is.
fn least(kind: Kind) -> u32
    ensures { result ≡ least kind }
{
    if is_signed(kind) { 1 << 31 } else { 0 }
}

/// The word behind a word.
fn above(word: u32) -> u32
    ensures { result ≡ above word }
{
    word.wrapping_add(1)
}

/// Whether a register is less than a word, as one instruction, if there is one. It is none where no
/// word is less than that.
fn below(to: u32, kind: Kind, left: u32, word: u32) -> Option<Instr>
    requires to { to < 32 }
    requires left { left < 32 }
    ensures { option_map line_of result ≡ below_line to kind left word }
{
    if word == least(kind) {
        return None;
    }
    by_low(by_sign(kind, Op::Slti, Op::Sltiu), to, left, word)
}

/// Whether a register is 0; or its difference from another word, in x5.
fn equal(to: u32, left: u32, word: u32) -> Option<Instr>
    requires to { to < 32 }
    requires left { left < 32 }
    ensures { option_map line_of result ≡ equal_line to left word }
{
    if word == 0 {
        return Some(sltiu(register(to), register(left), 1));
    }
    by_low(Op::Addi, 5, left, negated(word))
}

/// Whether a register is other than 0; or its difference from another word, in x5.
fn unequal(to: u32, left: u32, word: u32) -> Option<Instr>
    requires to { to < 32 }
    requires left { left < 32 }
    ensures { option_map line_of result ≡ unequal_line to left word }
{
    if word == 0 {
        return Some(sltu(register(to), 0, register(left)));
    }
    by_low(Op::Addi, 5, left, negated(word))
}

/// The first instruction of a comparison with a word on its right, if there is one with an
/// immediate (RISC-V Unprivileged ISA, 2.4).
fn comparison_start(to: u32, op: Comparison, kind: Kind, left: u32, word: u32) -> Option<Instr>
    requires to { to < 32 }
    requires left { left < 32 }
    ensures { option_map line_of result ≡ comparison_start to op kind left word }
{
    match op {
        Comparison::Less | Comparison::GreaterOrEqual => {
            by_low(by_sign(kind, Op::Slti, Op::Sltiu), to, left, word)
        }
        Comparison::Greater | Comparison::LessOrEqual => below(to, kind, left, above(word)),
        Comparison::Equal => equal(to, left, word),
        Comparison::NotEqual => unequal(to, left, word),
    }
}

/// The first instruction of a comparison with a constant in its right register, if there is one.
pub(crate) fn constant_comparison(
    to: u32,
    op: Comparison,
    kind: Kind,
    left: u32,
    right: u32,
    constant: Constant,
) -> Option<Instr>
    requires to { to < 32 }
    requires left { left < 32 }
    ensures { option_map line_of result ≡ comparison_line to op kind left right constant }
{
    if right == constant.register && left != constant.register {
        return comparison_start(to, op, kind, left, constant.word);
    }
    None
}

/// What is behind the first instruction of a comparison with a word.
fn push_comparison_rest(
    lines: &mut Vec<Line>,
    to: u32,
    op: Comparison,
    word: u32,
) -> Result<(), NoMemory>
    requires { to < 32 }
    ensures { OnOk result (code_lines lines.new.items
        ≡ code_lines lines.old.items ++ comparison_rest to op word) }
{
    match op {
        Comparison::Less | Comparison::LessOrEqual => Ok(()),
        Comparison::Greater | Comparison::GreaterOrEqual => {
            push(lines, xori(register(to), register(to), 1))
        }
        Comparison::Equal => {
            if word == 0 {
                return Ok(());
            }
            push(lines, sltiu(register(to), 5, 1))
        }
        Comparison::NotEqual => {
            if word == 0 {
                return Ok(());
            }
            push(lines, sltu(register(to), 0, 5))
        }
    }
}

/// 1 where two values compare so, else 0, by an immediate where the right one is a constant that
/// the line before it passed; x5 is used.
pub(crate) fn push_compared_with(
    lines: &mut Vec<Line>,
    before: Option<Constant>,
    to: u32,
    op: Comparison,
    kind: Kind,
    left: u32,
    right: u32,
) -> Result<(), NoMemory>
    requires to { to < 32 }
    requires left { left < 32 }
    requires right { right < 32 }
    ensures { OnOk result (code_lines lines.new.items
        ≡ code_lines lines.old.items ++ compared_with_code before to op kind left right) }
{
    if let Some(constant) = before {
        if let Some(instr) = constant_comparison(to, op, kind, left, right, constant) {
            push(lines, instr)?;
            return push_comparison_rest(lines, to, op, constant.word);
        }
    }
    push_compared(lines, to, op, kind, left, right)
}
