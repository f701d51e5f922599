//! Assignments, `++` and `--` (C11 6.5.16, 6.5.2.4, 6.5.3.1).
ghost use Rattle.std.specs.Prelude.{◌≡◌, Some, None, IfOk, if◌then◌else◌};
ghost use Rattle.im_ctype.specs.Table.{Table, structs_of};
ghost use Rattle.im_ctype.specs.Types.{integer};
ghost use Rattle.im_check_operations.specs.im_rules.Conversions as c;
ghost use Rattle.im_store.specs.declared.operators.BinaryOp.TheVariants as s;
ghost use Rattle.im_typed.specs.Program as p;
ghost use Rattle.im_typed.specs.declared.expression.Change.TheVariants as ch;
ghost use Rattle.im_typed.specs.ProgramOf.{expr_of, place_of};
ghost use Rattle.im_types.specs.Shape.{type_of};
ghost use Rattle.im_check_operands.specs.Shape.{value_in};

use crate::element_size;
use im_check_constancy::Annotated;
use im_check_conversions::{
    access, as_integer, as_type, common, integer_in, integer_of, of_variable, promoted,
};
use im_check_operands::Value;
use im_ctree::{AssignOp, BinaryOp, StepOp};
use im_ctype::{Integer, TypeTable};
use im_num::NoMemory;
use im_store as store;
use im_typed::{Change, Expr, Place};
use im_types::Type;
use std::alloc::Global;

/// The operator of a compound assignment.
pub fn operator_of(op: AssignOp) -> Option<BinaryOp>
    ensures { result ≡ c.operator_of op }
{
    match op {
        AssignOp::Plain => None,
        AssignOp::Multiply => Some(BinaryOp::Multiply),
        AssignOp::Divide => Some(BinaryOp::Divide),
        AssignOp::Remainder => Some(BinaryOp::Remainder),
        AssignOp::Add => Some(BinaryOp::Add),
        AssignOp::Subtract => Some(BinaryOp::Subtract),
        AssignOp::ShiftLeft => Some(BinaryOp::ShiftLeft),
        AssignOp::ShiftRight => Some(BinaryOp::ShiftRight),
        AssignOp::BitAnd => Some(BinaryOp::BitAnd),
        AssignOp::BitXor => Some(BinaryOp::BitXor),
        AssignOp::BitOr => Some(BinaryOp::BitOr),
    }
}

fn store_operator(op: BinaryOp) -> store::BinaryOp
    ensures { result ≡ c.store_operator op }
{
    match op {
        BinaryOp::Multiply => store::BinaryOp::Multiply,
        BinaryOp::Divide => store::BinaryOp::Divide,
        BinaryOp::Remainder => store::BinaryOp::Remainder,
        BinaryOp::Subtract => store::BinaryOp::Subtract,
        BinaryOp::ShiftLeft => store::BinaryOp::ShiftLeft,
        BinaryOp::ShiftRight => store::BinaryOp::ShiftRight,
        BinaryOp::BitAnd => store::BinaryOp::BitAnd,
        BinaryOp::BitXor => store::BinaryOp::BitXor,
        BinaryOp::BitOr => store::BinaryOp::BitOr,
        _ => store::BinaryOp::Add,
    }
}

fn is_shift(op: BinaryOp) -> bool
    ensures { result ≡ c.is_shift op }
{
    match op {
        BinaryOp::ShiftLeft | BinaryOp::ShiftRight => true,
        _ => false,
    }
}

fn is_subtraction(op: BinaryOp) -> bool
    ensures { result ≡ c.is_subtraction op }
{
    match op {
        BinaryOp::Subtract => true,
        _ => false,
    }
}

/// The type in which `a op= b` is computed.
fn computed_in(op: BinaryOp, x: Integer, y: &Type) -> Integer
    ensures { result ≡ c.computed_in op (integer x) (type_of y.now) }
{
    if is_shift(op) {
        promoted(x)
    } else {
        common(&Type::Integer(x), y)
    }
}

/// The type of the right operand of `a op= b`, converted: of a shift its own, promoted.
fn operand_type(op: BinaryOp, x: Integer, y: &Type) -> Integer
    ensures { result ≡ (if c.is_shift op then c.promoted (c.integer_of (type_of y.now))
        else c.common (integer x) (type_of y.now)) }
{
    if is_shift(op) {
        promoted(integer_of(y))
    } else {
        common(&Type::Integer(x), y)
    }
}

/// The right operand of `a op= b`.
fn changed_by(alloc: Global, op: BinaryOp, x: Integer, y: Value) -> Result<Annotated, NoMemory>
    ensures { (types : Table) → IfOk result
        (λ e. expr_of types e.tree ≡ c.changed_by op (integer x) (value_in types y)) }
{
    as_integer(alloc, operand_type(op, x, &y.ty), y)
}

/// The value stored.
fn stored(
    alloc: Global,
    table: &TypeTable,
    ty: Type,
    place: Place,
    y: Value,
) -> Result<Value, NoMemory>
    ensures { IfOk result (λ v. value_in table.now v ≡ record {
      type = type_of ty;
      expr = c.assigned_by (structs_of table.now) None (type_of ty)
          (place_of table.now place) (value_in table.now y);
    }) }
{
    let what = access(table, &ty)?;
    let value = as_type(alloc, &ty, y)?;
    let to = Box::new(alloc, place)?;
    let expr = Expr::Assign(what, to, Box::new(alloc, value.tree)?);
    Ok(of_variable(ty, expr))
}

/// A number computed with what stands at the place.
fn updated_number(
    alloc: Global,
    op: BinaryOp,
    ty: Integer,
    place: Place,
    y: Value,
) -> Result<Value, NoMemory>
    ensures { (types : Table) → IfOk result (λ v. value_in types v ≡ record {
      type = integer ty;
      expr = c.updated (structs_of types) op (integer ty) (place_of types place)
          (value_in types y);
    }) }
{
    let change = Change::Number {
        kind: ty.kind(),
        op: store_operator(op),
        at: computed_in(op, ty, &y.ty).kind(),
    };
    let value = changed_by(alloc, op, ty, y)?;
    let to = Box::new(alloc, place)?;
    let by = Box::new(alloc, value.tree)?;
    let expr = Expr::Update {
        place: to,
        change,
        by,
    };
    Ok(of_variable(Type::Integer(ty), expr))
}

/// A pointer moved, at its place.
fn updated_pointer(
    alloc: Global,
    table: &TypeTable,
    op: BinaryOp,
    ty: Type,
    place: Place,
    y: Value,
) -> Result<Value, NoMemory>
    ensures { IfOk result (λ v. value_in table.now v ≡ record {
      type = type_of ty;
      expr = p.Update (place_of table.now place) (ch.Move
          (c.element_size (structs_of table.now) (type_of ty)) (c.is_subtraction op))
          (expr_of table.now y.expr.tree);
    }) }
{
    let change = Change::Move {
        size: element_size(table, &ty)?,
        back: is_subtraction(op),
    };
    let to = Box::new(alloc, place)?;
    let by = Box::new(alloc, y.expr.tree)?;
    let expr = Expr::Update {
        place: to,
        change,
        by,
    };
    Ok(of_variable(ty, expr))
}

/// What a compound assignment makes.
fn updated(
    alloc: Global,
    table: &TypeTable,
    op: BinaryOp,
    ty: Type,
    place: Place,
    y: Value,
) -> Result<Value, NoMemory>
    ensures { IfOk result (λ v. value_in table.now v ≡ record {
      type = type_of ty;
      expr = c.updated (structs_of table.now) op (type_of ty) (place_of table.now place)
          (value_in table.now y);
    }) }
{
    match integer_in(&ty) {
        Some(i) => updated_number(alloc, op, i, place, y),
        None => updated_pointer(alloc, table, op, ty, place, y),
    }
}

/// What an assignment to an lvalue makes.
pub fn assigned(
    alloc: Global,
    table: &TypeTable,
    op: AssignOp,
    ty: Type,
    place: Place,
    y: Value,
) -> Result<Value, NoMemory>
    ensures { IfOk result (λ v. value_in table.now v ≡ record {
      type = type_of ty;
      expr = c.assigned_by (structs_of table.now) (c.operator_of op) (type_of ty)
          (place_of table.now place) (value_in table.now y);
    }) }
{
    match operator_of(op) {
        None => stored(alloc, table, ty, place, y),
        Some(operator) => updated(alloc, table, operator, ty, place, y),
    }
}

fn is_decrement(op: StepOp) -> bool
    ensures { result ≡ c.is_decrement op }
{
    match op {
        StepOp::Increment => false,
        StepOp::Decrement => true,
    }
}

fn step_operator(op: StepOp) -> store::BinaryOp
    ensures { result ≡ (if c.is_decrement op then s.Subtract else s.Add) }
{
    match op {
        StepOp::Increment => store::BinaryOp::Add,
        StepOp::Decrement => store::BinaryOp::Subtract,
    }
}

/// How `++` and `--` change what stands at a place.
fn step_of(table: &TypeTable, op: StepOp, ty: &Type) -> Result<Change, NoMemory>
    ensures { IfOk result
        (λ change. change ≡ c.step_of (structs_of table.now) op (type_of ty.now)) }
{
    match ty {
        Type::Integer(i) => Ok(Change::Number {
            kind: i.kind(),
            op: step_operator(op),
            at: promoted(*i).kind(),
        }),
        Type::Void
        | Type::Pointer(_, _)
        | Type::Array(_, _)
        | Type::Unsized(_)
        | Type::Struct(_)
        | Type::Function(_, _) => Ok(Change::Move {
            size: element_size(table, ty)?,
            back: is_decrement(op),
        }),
    }
}

/// A change by 1. With `old` its value is the one before.
pub fn stepped(
    alloc: Global,
    table: &TypeTable,
    op: StepOp,
    old: bool,
    ty: Type,
    place: Place,
) -> Result<Value, NoMemory>
    ensures { IfOk result (λ v. value_in table.now v ≡ record {
      type = type_of ty;
      expr = p.Increment (place_of table.now place)
          (c.step_of (structs_of table.now) op (type_of ty)) old;
    }) }
{
    let change = step_of(table, op, &ty)?;
    let to = Box::new(alloc, place)?;
    let expr = Expr::Increment {
        place: to,
        change,
        old,
    };
    Ok(of_variable(ty, expr))
}
