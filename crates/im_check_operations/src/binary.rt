//! What binary operators make of values (C11 6.5.5 to 6.5.14).
ghost use Rattle.std.specs.Prelude.{◌≡◌, IfOk};
ghost use Rattle.im_ctype.specs.Table.{Table, structs_of};
ghost use Rattle.im_typed.specs.Program as p;
ghost use Rattle.im_typed.specs.ProgramOf.{expr_of};
ghost use Rattle.im_check_operations.specs.im_rules.Conversions as c;
ghost use Rattle.im_check_operands.specs.Shape.{value_in};

use crate::compare::comparison;
use crate::{distance, moved_before, moved_behind};
use im_check_constancy as constancy;
use im_check_conversions::{as_integer, common, integer_of, of_integer, promoted};
use im_check_operands::Value;
use im_ctree::BinaryOp;
use im_ctype::{Integer, TypeTable};
use im_num::NoMemory;
use im_store as store;
use im_store::Comparison;
use im_types::is_pointer;
use std::alloc::Global;

/// Both operands in their common type.
fn arithmetic(alloc: Global, op: store::BinaryOp, x: Value, y: Value) -> Result<Value, NoMemory>
    ensures { (types : Table) → IfOk result
        (λ r. value_in types r ≡ c.arithmetic op (value_in types x) (value_in types y)) }
{
    let ty = common(&x.ty, &y.ty);
    let left = as_integer(alloc, ty, x)?;
    let right = as_integer(alloc, ty, y)?;
    let tree = constancy::binary(alloc, op, ty.kind(), left, right)?;
    Ok(of_integer(ty, tree))
}

/// Each operand is promoted by itself (C11 6.5.7p3).
fn shifted(alloc: Global, op: store::BinaryOp, x: Value, y: Value) -> Result<Value, NoMemory>
    ensures { (types : Table) → IfOk result
        (λ r. value_in types r ≡ c.shifted op (value_in types x) (value_in types y)) }
{
    let ty = promoted(integer_of(&x.ty));
    let count = promoted(integer_of(&y.ty));
    let left = as_integer(alloc, ty, x)?;
    let right = as_integer(alloc, count, y)?;
    let tree = constancy::binary(alloc, op, ty.kind(), left, right)?;
    Ok(of_integer(ty, tree))
}

/// What `+` and `[]` make of two values (C11 6.5.6p8).
pub fn sum(alloc: Global, table: &TypeTable, x: Value, y: Value) -> Result<Value, NoMemory>
    ensures { IfOk result (λ v. value_in table.now v
        ≡ c.sum (structs_of table.now) (value_in table.now x) (value_in table.now y)) }
{
    if is_pointer(&x.ty) {
        moved_behind(alloc, table, false, x, y)
    } else if is_pointer(&y.ty) {
        moved_before(alloc, table, x, y)
    } else {
        arithmetic(alloc, store::BinaryOp::Add, x, y)
    }
}

/// What `-` makes of two values (C11 6.5.6p8, p9).
fn difference(alloc: Global, table: &TypeTable, x: Value, y: Value) -> Result<Value, NoMemory>
    ensures { IfOk result (λ v. value_in table.now v
        ≡ c.difference (structs_of table.now) (value_in table.now x) (value_in table.now y)) }
{
    if is_pointer(&x.ty) {
        if is_pointer(&y.ty) {
            distance(alloc, table, x, y)
        } else {
            moved_behind(alloc, table, true, x, y)
        }
    } else {
        arithmetic(alloc, store::BinaryOp::Subtract, x, y)
    }
}

/// `||` (C11 6.5.14).
fn either(alloc: Global, x: Value, y: Value) -> Result<Value, NoMemory>
    ensures { (types : Table) → IfOk result (λ r. value_in types r
        ≡ c.int_value (p.Or (expr_of types x.expr.tree) (expr_of types y.expr.tree))) }
{
    let tree = constancy::disjunction(alloc, x.expr, y.expr)?;
    Ok(of_integer(Integer::Int, tree))
}

/// `&&` (C11 6.5.13).
fn both(alloc: Global, x: Value, y: Value) -> Result<Value, NoMemory>
    ensures { (types : Table) → IfOk result (λ r. value_in types r
        ≡ c.int_value (p.And (expr_of types x.expr.tree) (expr_of types y.expr.tree))) }
{
    let tree = constancy::conjunction(alloc, x.expr, y.expr)?;
    Ok(of_integer(Integer::Int, tree))
}

/// What a binary operator makes of its operands' values (C11 6.5.5 to 6.5.14).
pub fn operation(
    alloc: Global,
    table: &TypeTable,
    op: BinaryOp,
    x: Value,
    y: Value,
) -> Result<Value, NoMemory>
    ensures { IfOk result (λ r. value_in table.now r ≡ c.operation (structs_of table.now) op
        (value_in table.now x) (value_in table.now y)) }
{
    match op {
        BinaryOp::Or => either(alloc, x, y),
        BinaryOp::And => both(alloc, x, y),
        BinaryOp::BitOr => arithmetic(alloc, store::BinaryOp::BitOr, x, y),
        BinaryOp::BitXor => arithmetic(alloc, store::BinaryOp::BitXor, x, y),
        BinaryOp::BitAnd => arithmetic(alloc, store::BinaryOp::BitAnd, x, y),
        BinaryOp::Equal => comparison(alloc, Comparison::Equal, x, y),
        BinaryOp::NotEqual => comparison(alloc, Comparison::NotEqual, x, y),
        BinaryOp::Less => comparison(alloc, Comparison::Less, x, y),
        BinaryOp::Greater => comparison(alloc, Comparison::Greater, x, y),
        BinaryOp::LessEqual => comparison(alloc, Comparison::LessOrEqual, x, y),
        BinaryOp::GreaterEqual => comparison(alloc, Comparison::GreaterOrEqual, x, y),
        BinaryOp::ShiftLeft => shifted(alloc, store::BinaryOp::ShiftLeft, x, y),
        BinaryOp::ShiftRight => shifted(alloc, store::BinaryOp::ShiftRight, x, y),
        BinaryOp::Add => sum(alloc, table, x, y),
        BinaryOp::Subtract => difference(alloc, table, x, y),
        BinaryOp::Multiply => arithmetic(alloc, store::BinaryOp::Multiply, x, y),
        BinaryOp::Divide => arithmetic(alloc, store::BinaryOp::Divide, x, y),
        BinaryOp::Remainder => arithmetic(alloc, store::BinaryOp::Remainder, x, y),
    }
}
