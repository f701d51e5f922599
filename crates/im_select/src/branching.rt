ghost use Rattle.std.specs.Prelude.{◌≡◌, ◌<◌, if◌then◌else◌, Some, IfSome, All, IsTrue, length};
ghost use Rattle.im_rv.specs.declared.format.Format.TheVariants.{Branch as OfBranches};
ghost use Rattle.im_rv.specs.declared.instr.Op.TheVariants.{Beq, Bne};
ghost use Rattle.im_rv.specs.Fits.{in_signed, is_even};
ghost use Rattle.im_rv.specs.Formats.{format_of};
ghost use Rattle.im_rv.specs.Lines.{line_of};
ghost use Rattle.im_rv.specs.Steps.{word};
ghost use Rattle.im_rv_reach.specs.Instructions.{branching};
ghost use Rattle.im_select_relation.specs.Selected.{below, or_zero};
ghost use Rattle.im_block.specs.declared.code.Exit.TheVariants.{Branch};
ghost use Rattle.im_block.specs.Wellformed.{ExitThere};
ghost use Rattle.im_live.specs.Words.{has, starts_have, IsMachineLine};
ghost use Rattle.im_select.specs.declared.branching.Test.TheVariants.{Compares};
ghost use Rattle.im_select.specs.Emitted.{test_line, taken_by, zero_of, by_zero, taken_test};
ghost use Rattle.im_select.specs.Emitted.{own_lines};
ghost use Rattle.im_select.specs.Places.{IsTest};

use crate::computing::by_sign;
use crate::words::{register, to_word};
use im_block::{Exit, Line as Placed};
use im_num::Kind;
use im_rv::{Instr, Op};
use im_store::Comparison;

/// What a branch tests.
#[derive(Clone, Copy)]
pub enum Test {
    /// Whether a register is other than 0.
    Nonzero(u32),
    /// Whether two registers compare so (C11 6.5.8, 6.5.9).
    Compares {
        op: Comparison,
        kind: Kind,
        left: u32,
        right: u32,
    },
    /// As `Compares`, of registers where x0 stands for that of a zero before the comparison.
    ComparesZero {
        op: Comparison,
        kind: Kind,
        left: u32,
        right: u32,
    },
}

/// A branch by two registers, to so many bytes on (RISC-V Unprivileged ISA, 2.5).
fn branch(op: Op, left: u32, right: u32, bytes: i32) -> Instr
    requires form { format_of op ≡ OfBranches }
    requires left { left < 32 }
    requires right { right < 32 }
    requires near { IsTrue (in_signed 12 bytes) }
    requires even { IsTrue (is_even bytes) }
    ensures { line_of result ≡ branching op left right (word bytes) }
{
    Instr {
        op,
        rd: 0,
        rs1: register(left),
        rs2: register(right),
        imm: bytes,
    }
}

/// The branch where two registers are equal or, where `holds` is false, where they are not.
fn branch_equal(holds: bool, left: u32, right: u32, bytes: i32) -> Instr
    requires left { left < 32 }
    requires right { right < 32 }
    requires near { IsTrue (in_signed 12 bytes) }
    requires even { IsTrue (is_even bytes) }
    ensures { line_of result ≡ branching (if holds then Beq else Bne) left right (word bytes) }
{
    let op = if holds { Op::Beq } else { Op::Bne };
    branch(op, left, right, bytes)
}

/// The branch where the first of two registers is less or, where `holds` is false, where it is not.
fn branch_below(holds: bool, kind: Kind, left: u32, right: u32, bytes: i32) -> Instr
    requires left { left < 32 }
    requires right { right < 32 }
    requires near { IsTrue (in_signed 12 bytes) }
    requires even { IsTrue (is_even bytes) }
    ensures { line_of result
        ≡ branching (if holds then (below kind left right).holds else (below kind left right).fails)
        left right (word bytes) }
{
    let op = if holds {
        by_sign(kind, Op::Blt, Op::Bltu)
    } else {
        by_sign(kind, Op::Bge, Op::Bgeu)
    };
    branch(op, left, right, bytes)
}

/// The branch where two registers compare so or, where `holds` is false, where they do not.
fn branch_compared(
    holds: bool,
    op: Comparison,
    kind: Kind,
    left: u32,
    right: u32,
    bytes: i32,
) -> Instr
    requires left { left < 32 }
    requires right { right < 32 }
    requires near { IsTrue (in_signed 12 bytes) }
    requires even { IsTrue (is_even bytes) }
    ensures { line_of result ≡ test_line holds (Compares op kind left right) (word bytes) }
{
    match op {
        Comparison::Less => branch_below(holds, kind, left, right, bytes),
        Comparison::Greater => branch_below(holds, kind, right, left, bytes),
        Comparison::LessOrEqual => branch_below(!holds, kind, right, left, bytes),
        Comparison::GreaterOrEqual => branch_below(!holds, kind, left, right, bytes),
        Comparison::Equal => branch_equal(holds, left, right, bytes),
        Comparison::NotEqual => branch_equal(!holds, left, right, bytes),
    }
}

/// The branch where a test holds or, where `holds` is false, where it does not.
pub(crate) fn branch_by(test: Test, holds: bool, bytes: i32) -> Instr
    requires test { IsTest test }
    requires near { IsTrue (in_signed 12 bytes) }
    requires even { IsTrue (is_even bytes) }
    ensures { line_of result ≡ test_line holds test (word bytes) }
{
    match test {
        Test::Nonzero(on) => branch_equal(!holds, on, 0, bytes),
        Test::Compares {
            op,
            kind,
            left,
            right,
        } => { branch_compared(holds, op, kind, left, right, bytes) }
        Test::ComparesZero {
            op,
            kind,
            left,
            right,
        } => { branch_compared(holds, op, kind, left, right, bytes) }
    }
}

/// Whether a register is in a word of registers.
pub(crate) fn lives(word: u32, register: u32) -> bool
    requires { register < 32 }
    ensures { result ≡ has word register }
{
    word >> register & 1 == 1
}

/// The test that a branch takes of the line before it: a comparison, whose register no block reads.
fn taken_comparison(live: &[u32], line: Placed, on: u32, holds: u32, fails: u32) -> Option<Test>
    requires holds { holds < length live.now }
    requires fails { fails < length live.now }
    requires machine { IsMachineLine line }
    ensures value { result ≡ taken_by (starts_have live.now) line (Branch on holds fails) }
    ensures test { IfSome result IsTest }
{
    match line {
        Placed::Compare {
            to,
            op,
            kind,
            left,
            right,
        } => {
            let read = lives(live[holds as usize], to) || lives(live[fails as usize], to);
            if on == to && !read {
                return Some(Test::Compares {
                    op,
                    kind,
                    left,
                    right,
                });
            }
            None
        }
        _ => None,
    }
}

/// The test that an exit takes of the line before it.
fn taken_by(live: &[u32], line: Placed, exit: Exit) -> Option<Test>
    requires there { ExitThere (length live.now) exit }
    requires machine { IsMachineLine line }
    ensures value { result ≡ taken_by (starts_have live.now) line exit }
    ensures test { IfSome result IsTest }
{
    match exit {
        Exit::Branch { on, holds, fails } => taken_comparison(live, line, on, holds, fails),
        _ => None,
    }
}

/// The register that a line sets to a value whose word is 0, if it does.
fn zero_of(line: Placed) -> Option<u32>
    requires { IsMachineLine line }
    ensures value { result ≡ zero_of line }
    ensures small { IfSome result (λ zero. zero < 32) }
{
    match line {
        Placed::Put { to, number } => { if to_word(number) == 0 { Some(to) } else { None } }
        Placed::PutNull { to } => Some(to),
        _ => None,
    }
}

/// x0 for the register of a zero (RISC-V Unprivileged ISA, 2.1).
fn or_zero(zero: u32, register: u32) -> u32
    requires { register < 32 }
    ensures value { result ≡ or_zero zero register }
    ensures small { result < 32 }
{
    if register == zero { 0 } else { register }
}

/// A comparison with a zero that is put before it into a register, which no block reads.
fn compare_zero(live: &[u32], zero: u32, test: Test, holds: u32, fails: u32) -> Test
    requires zero { zero < 32 }
    requires test { IsTest test }
    requires holds { holds < length live.now }
    requires fails { fails < length live.now }
    ensures value { Some result
        ≡ by_zero (starts_have live.now) (Some zero) (Some test) (Branch 0 holds fails) }
    ensures test { IsTest result }
{
    match test {
        Test::Compares {
            op,
            kind,
            left,
            right,
        } => {
            if lives(live[holds as usize], zero) || lives(live[fails as usize], zero) {
                return test;
            }
            Test::ComparesZero {
                op,
                kind,
                left: or_zero(zero, left),
                right: or_zero(zero, right),
            }
        }
        _ => test,
    }
}

/// The test that an exit takes, which takes a zero before it too.
fn by_zero(live: &[u32], zero: Option<u32>, taken: Option<Test>, exit: Exit) -> Option<Test>
    requires there { ExitThere (length live.now) exit }
    requires zero { IfSome zero (λ zero. zero < 32) }
    requires test { IfSome taken IsTest }
    ensures value { result ≡ by_zero (starts_have live.now) zero taken exit }
    ensures test { IfSome result IsTest }
{
    let Some(zero) = zero else {
        return taken;
    };
    let Some(test) = taken else {
        return None;
    };
    match exit {
        Exit::Branch { holds, fails, .. } => { Some(compare_zero(live, zero, test, holds, fails)) }
        _ => taken,
    }
}

/// The test that a block's exit takes of the block's last line, and of a zero before it. A word of `live` has the registers
/// that live at the start of a block.
pub(crate) fn taken_test(live: &[u32], lines: &[Placed], exit: Exit) -> Option<Test>
    requires there { ExitThere (length live.now) exit }
    requires machine { All IsMachineLine lines.now }
    ensures value { result ≡ taken_test (starts_have live.now) lines.now exit }
    ensures test { IfSome result IsTest }
{
    if lines.is_empty() {
        return None;
    }
    let taken = taken_by(live, lines[lines.len() - 1], exit);
    if lines.len() < 2 {
        return taken;
    }
    by_zero(live, zero_of(lines[lines.len() - 2]), taken, exit)
}

/// Lines but those that a test is made of: a comparison, or a zero and that.
fn lines_but(lines: &[Placed], test: Test) -> &[Placed]
    ensures { result.now ≡ own_lines (Some test) lines.now }
{
    match test {
        Test::Nonzero(_) => &lines[..lines.len().saturating_sub(1)],
        Test::Compares { .. } => &lines[..lines.len().saturating_sub(1)],
        Test::ComparesZero { .. } => &lines[..lines.len().saturating_sub(2)],
    }
}

/// The lines of a block that its exit does not take.
pub(crate) fn own_lines(lines: &[Placed], taken: Option<Test>) -> &[Placed]
    ensures { result.now ≡ own_lines taken lines.now }
{
    match taken {
        Some(test) => lines_but(lines, test),
        None => lines,
    }
}
