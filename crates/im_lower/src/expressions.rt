ghost use Rattle.std.specs.Prelude.{◌≡◌, ◌+◌, ◌<◌, IfOk, IfSome, MatchOption, OnOk};
ghost use Rattle.im_typed.specs.declared.expression.Expr.{size-Expr};
ghost use Rattle.im_typed.specs.ProgramOf.{access_of, expr_of, place_of, program_of};
ghost use Rattle.im_lower_plain.specs.Make.{make, make_place, make_test, part_offset};
ghost use Rattle.im_lower.specs.MakeEach.{make_each};

use crate::builder::{Builder, Targets, next};
use crate::copies::{groups_in, put_copy};
use crate::lines::{put_change, put_increment, put_load, register_at, small};
use crate::operators::{put_operator, put_truths};
use crate::places::{behind, changed_kind, place_at, pointer_of, shape_of};
use im_block::{Exit, Line};
use im_ctype::cells_of_struct;
use im_num::NoMemory;
use im_typed::{Access, Expr, Place, Prog};

/// What the code of a function stands on: the number of the function's first object, and the
/// register in which statements put values. Registers behind it are free.
#[derive(Clone, Copy)]
pub(crate) struct Base {
    pub(crate) first: u32,
    pub(crate) low: u32,
}

/// Puts the code of an expression whose value a statement wants.
pub(crate) fn lower_value(
    code: &mut Builder,
    value: &Expr,
    prog: &Prog,
    base: Base,
) -> Result<(), NoMemory>
    ensures { OnOk result (code.new ≡ make (program_of prog.now) base.first
        (expr_of prog.now.types value.now) base.low (base.low + 1) code.old) }
{
    lower_expression(code, value, base.low, next(base.low)?, prog, base.first)
}

/// Puts what designates a place: its pointer, if it has one, into the register `free`.
#[cycle(expressions)]
pub(crate) fn lower_place(
    code: &mut Builder,
    place: &Place,
    free: u32,
    prog: &Prog,
    first: u32,
) -> Result<(), NoMemory>
    ensures { OnOk result (code.new ≡ make_place (program_of prog.now) first
        (place_of prog.now.types place.now) free code.old) }
{
    match pointer_of(place) {
        None => Ok(()),
        Some(pointer) => lower_expression(code, pointer, free, next(free)?, prog, first),
    }
}

/// Puts the code of an expression, whose value goes into the register `to`. Registers from `free`
/// on may be used. It recurs as deep as the tree is, which the rules of the language bound; a loop
/// goes down what is converted, what stands in front of a comma, and what an element is one of, so
/// that chains of them take no stack.
#[cycle(expressions)]
pub(crate) fn lower_expression(
    code: &mut Builder,
    expression: &Expr,
    mut to: u32,
    mut free: u32,
    prog: &Prog,
    first: u32,
) -> Result<(), NoMemory>
    ensures { OnOk result (code.new ≡ make (program_of prog.now) first
        (expr_of prog.now.types expression.now) to free code.old) }
{
    let mut rest = expression;
    while let Some(operand) = lower_behind(code, rest, to, free, prog, first)? {
        rest = operand;
        to = free;
        free = next(free)?;
    }
    Ok(())
}

/// Puts the code of an expression, but for that of the operand with which a chain goes on: its
/// value is to go into the register `free`.
#[cycle(expressions)]
fn lower_behind<'a>(
    code: &mut Builder,
    expression: &'a Expr,
    to: u32,
    free: u32,
    prog: &Prog,
    first: u32,
) -> Result<Option<&'a Expr>, NoMemory>
    ensures made { IfOk result (λ found. MatchOption found
        (code.new ≡ make (program_of prog.now) first
        (expr_of prog.now.types expression.now) to free code.old)
        (λ operand. make (program_of prog.now) first
        (expr_of prog.now.types operand.now) free (free + 1) code.new
        ≡ make (program_of prog.now) first
        (expr_of prog.now.types expression.now) to free code.old)) }
    ensures below { IfOk result (λ found. IfSome found
        (λ operand. size-Expr operand.now < size-Expr expression.now)) }
{
    let mut kept = expression;
    while let Some(operand) = lower_kept(code, kept, to, free, prog, first)? {
        kept = operand;
    }
    lower_link(code, kept, to, free, prog, first)
}

/// Puts the code of a conversion, a comma or a cast to `void`, but for that of its first operand,
/// whose value is to go into the same register; of anything else nothing.
#[cycle(expressions)]
fn lower_kept<'a>(
    code: &mut Builder,
    expression: &'a Expr,
    to: u32,
    free: u32,
    prog: &Prog,
    first: u32,
) -> Result<Option<&'a Expr>, NoMemory>
    ensures made { IfOk result (λ found. MatchOption found
        (code.new ≡ code.old)
        (λ operand. make (program_of prog.now) first
        (expr_of prog.now.types operand.now) to free code.new
        ≡ make (program_of prog.now) first
        (expr_of prog.now.types expression.now) to free code.old)) }
    ensures below { IfOk result (λ found. IfSome found
        (λ operand. size-Expr operand.now < size-Expr expression.now)) }
{
    match expression {
        Expr::Convert(_, operand) => {
            put_operator(code, expression, to, free)?;
            Ok(Some(operand))
        }
        Expr::Comma(left, right) => {
            lower_expression(code, right, to, free, prog, first)?;
            Ok(Some(left))
        }
        Expr::Discard(operand) => Ok(Some(operand)),
        _ => Ok(None),
    }
}

/// Puts the same code of an expression that is no conversion, no comma and no cast.
#[cycle(expressions)]
fn lower_link<'a>(
    code: &mut Builder,
    expression: &'a Expr,
    to: u32,
    free: u32,
    prog: &Prog,
    first: u32,
) -> Result<Option<&'a Expr>, NoMemory>
    ensures made { IfOk result (λ found. MatchOption found
        (code.new ≡ make (program_of prog.now) first
        (expr_of prog.now.types expression.now) to free code.old)
        (λ operand. make (program_of prog.now) first
        (expr_of prog.now.types operand.now) free (free + 1) code.new
        ≡ make (program_of prog.now) first
        (expr_of prog.now.types expression.now) to free code.old)) }
    ensures below { IfOk result (λ found. IfSome found
        (λ operand. size-Expr operand.now < size-Expr expression.now)) }
{
    match expression {
        Expr::Move {
            pointer: left,
            by: right,
            ..
        }
        | Expr::MoveBy {
            by: left,
            pointer: right,
            ..
        } => {
            put_operator(code, expression, to, free)?;
            let above = next(free)?;
            lower_expression(code, right, above, next(above)?, prog, first)?;
            Ok(Some(left))
        }
        Expr::Read(access, place) => {
            put_load(code, *access, to, place_at(place, free, first)?)?;
            Ok(pointer_of(place))
        }
        Expr::Address(place) => {
            let at = place_at(place, free, first)?;
            code.put(Line::Address { to, place: at })?;
            Ok(pointer_of(place))
        }
        _ => {
            lower_form(code, expression, to, free, prog, first)?;
            Ok(None)
        }
    }
}

/// Puts the code of an expression, that of its operands by calls.
#[cycle(expressions)]
fn lower_form(
    code: &mut Builder,
    expression: &Expr,
    to: u32,
    free: u32,
    prog: &Prog,
    first: u32,
) -> Result<(), NoMemory>
    ensures { OnOk result (code.new ≡ make (program_of prog.now) first
        (expr_of prog.now.types expression.now) to free code.old) }
{
    let above = next(free)?;
    match expression {
        Expr::Number(_, number) => code.put(Line::Put {
            to,
            number: *number,
        }),
        Expr::Null => code.put(Line::PutNull { to }),
        Expr::Serve(service) => code.put(Line::Serve {
            to,
            service: *service,
            from: None,
        }),
        Expr::Convert(_, operand) => {
            put_operator(code, expression, to, free)?;
            lower_expression(code, operand, to, free, prog, first)
        }
        Expr::Unary(_, _, operand) | Expr::Not(operand) | Expr::ServeWith(_, operand) => {
            put_operator(code, expression, to, free)?;
            lower_expression(code, operand, free, above, prog, first)
        }
        Expr::Binary(_, _, left, right)
        | Expr::Move {
            pointer: left,
            by: right,
            ..
        }
        | Expr::MoveBy {
            by: left,
            pointer: right,
            ..
        }
        | Expr::Distance { left, right, .. }
        | Expr::Compare(_, _, left, right) => {
            put_operator(code, expression, to, free)?;
            lower_expression(code, right, above, next(above)?, prog, first)?;
            lower_expression(code, left, free, above, prog, first)
        }
        Expr::Read(access, place) => {
            put_load(code, *access, to, place_at(place, free, first)?)?;
            lower_place(code, place, free, prog, first)
        }
        Expr::Address(place) => {
            let at = place_at(place, free, first)?;
            code.put(Line::Address { to, place: at })?;
            lower_place(code, place, free, prog, first)
        }
        Expr::And(left, right) => {
            let truths = put_truths(code, to)?;
            lower_test(code, right, free, truths, prog, first)?;
            let holds = code.close()?;
            lower_test(code, left, free, Targets { holds, ..truths }, prog, first)
        }
        Expr::Or(left, right) => {
            let truths = put_truths(code, to)?;
            lower_test(code, right, free, truths, prog, first)?;
            let fails = code.close()?;
            lower_test(code, left, free, Targets { fails, ..truths }, prog, first)
        }
        Expr::Choose(test, one, other) => {
            let join = code.close()?;
            lower_expression(code, other, to, free, prog, first)?;
            let fails = code.close()?;
            code.start(Exit::Jump(join))?;
            lower_expression(code, one, to, free, prog, first)?;
            let holds = code.close()?;
            lower_test(code, test, free, Targets { holds, fails }, prog, first)
        }
        Expr::Comma(left, right) => {
            lower_expression(code, right, to, free, prog, first)?;
            lower_expression(code, left, to, free, prog, first)
        }
        Expr::Discard(operand) => lower_expression(code, operand, to, free, prog, first),
        Expr::Assign(access, place, value) => match access {
            Access::Scalar(kind) => {
                code.put_write(place_at(place, free, first)?, *kind, to)?;
                lower_expression(code, value, to, behind(place, free)?, prog, first)?;
                lower_place(code, place, free, prog, first)
            }
            Access::Struct { number, .. } => {
                let from = behind(place, free)?;
                let cells = cells_of_struct(code.alloc(), *number, &prog.types)?;
                let groups = groups_in(place, value, &cells, prog, first)?;
                let at = place_at(place, free, first)?;
                put_copy(code, to, from, at, groups, &cells)?;
                lower_expression(code, value, from, next(from)?, prog, first)?;
                lower_place(code, place, free, prog, first)
            }
        },
        Expr::Update { place, change, by } => {
            let at = place_at(place, free, first)?;
            let from = behind(place, free)?;
            put_change(code, *change, to, to, from, at)?;
            lower_expression(code, by, from, next(from)?, prog, first)?;
            code.put_read(to, at, changed_kind(*change))?;
            lower_place(code, place, free, prog, first)
        }
        Expr::Increment { place, change, old } => {
            let at = place_at(place, free, first)?;
            put_increment(code, *change, *old, to, behind(place, free)?, at)?;
            lower_place(code, place, free, prog, first)
        }
        Expr::Part {
            from,
            access,
            whole,
        } => {
            let offset = part_offset(code, *from, whole, prog)?;
            put_load(
                code,
                *access,
                to,
                im_block::Place::Through {
                    pointer: free,
                    offset,
                },
            )?;
            lower_expression(code, whole, free, above, prog, first)
        }
        Expr::Call(function, arguments) => {
            code.put(Line::Call {
                to,
                function: *function,
                first: free,
                count: small(arguments.len() as u64)?,
            })?;
            lower_arguments(code, arguments, free, prog, first)
        }
    }
}

/// Puts the code of a test, which goes on at one of two blocks. `!`, `&&` and `||` are control flow;
/// anything else is a value and a branch.
#[cycle(expressions)]
pub(crate) fn lower_test(
    code: &mut Builder,
    test: &Expr,
    free: u32,
    targets: Targets,
    prog: &Prog,
    first: u32,
) -> Result<(), NoMemory>
    ensures { OnOk result (code.new ≡ make_test (program_of prog.now) first
        (expr_of prog.now.types test.now) free targets.holds targets.fails code.old) }
{
    match test {
        Expr::Not(operand) => {
            let turned = Targets {
                holds: targets.fails,
                fails: targets.holds,
            };
            lower_test(code, operand, free, turned, prog, first)
        }
        Expr::And(left, right) => {
            lower_test(code, right, free, targets, prog, first)?;
            let holds = code.close()?;
            lower_test(code, left, free, Targets { holds, ..targets }, prog, first)
        }
        Expr::Or(left, right) => {
            lower_test(code, right, free, targets, prog, first)?;
            let fails = code.close()?;
            lower_test(code, left, free, Targets { fails, ..targets }, prog, first)
        }
        _ => {
            code.start(Exit::Branch {
                on: free,
                holds: targets.holds,
                fails: targets.fails,
            })?;
            lower_expression(code, test, free, next(free)?, prog, first)
        }
    }
}

/// Puts the code of arguments, into registers side by side from `free` on.
#[cycle(expressions)]
fn lower_arguments(
    code: &mut Builder,
    arguments: &[Expr],
    free: u32,
    prog: &Prog,
    first: u32,
) -> Result<(), NoMemory>
    ensures { OnOk result (code.new ≡ make_each (program_of prog.now) first prog.now.types
        arguments.now free code.old) }
{
    for index in (0..arguments.len()).rev() {
        let to = register_at(free, index)?;
        lower_expression(code, &arguments[index], to, next(to)?, prog, first)?;
    }
    Ok(())
}

/// Where a part begins in a struct that an expression gives: the offset of its first cell.
fn part_offset(code: &Builder, from: u32, whole: &Expr, prog: &Prog) -> Result<u32, NoMemory>
    ensures { IfOk result (λ n. n ≡ part_offset (program_of prog.now) from
        (expr_of prog.now.types whole.now)) }
{
    let Some(Access::Struct { number, .. }) = shape_of(whole, prog) else {
        return Ok(0);
    };
    let cells = cells_of_struct(code.alloc(), number, &prog.types)?;
    match cells.get(from as usize) {
        Some(cell) => small(cell.offset),
        None => Ok(0),
    }
}
