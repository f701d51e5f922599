//! What `?:` and `,` make of values (C11 6.5.15, 6.5.17).
ghost use Rattle.std.specs.Prelude.{◌≡◌, IfOk, if◌then◌else◌};
ghost use Rattle.im_ctype.specs.Table.{Table, structs_of};
ghost use Rattle.im_ctype.specs.Types.{is_pointer};
ghost use Rattle.im_typed.specs.Program as p;
ghost use Rattle.im_typed.specs.ProgramOf.{expr_of};
ghost use Rattle.im_check_operations.specs.im_rules.Conversions as c;
ghost use Rattle.im_types.specs.Shape.{type_of};
ghost use Rattle.im_check_operands.specs.Shape.{value_in};

use crate::compare::has_pointer;
use im_check_constancy as constancy;
use im_check_conversions::{as_integer, as_pointer, common, of_integer, of_variable};
use im_check_operands::Value;
use im_num::NoMemory;
use im_typed::Expr;
use im_types::{Type, copy, is_integer, is_pointer};
use std::alloc::Global;

/// The type of the pointer among two results, of which one is.
fn pointer_among(alloc: Global, x: &Type, y: &Type) -> Result<Type, NoMemory>
    ensures { IfOk result
        (λ t. type_of t ≡ (if is_pointer (type_of x.now) then type_of x.now else type_of y.now)) }
{
    if is_pointer(x) {
        Ok(copy(alloc, x)?)
    } else {
        Ok(copy(alloc, y)?)
    }
}

/// Two results of which one is a pointer (C11 6.5.15p6).
fn chosen_pointer(alloc: Global, test: Value, x: Value, y: Value) -> Result<Value, NoMemory>
    ensures { (types : Table) → IfOk result (λ r. value_in types r ≡ record {
      type = if is_pointer (type_of x.ty) then type_of x.ty else type_of y.ty;
      expr = p.Choose (expr_of types test.expr.tree) (c.as_pointer (value_in types x))
          (c.as_pointer (value_in types y));
    }) }
{
    let ty = pointer_among(alloc, &x.ty, &y.ty)?;
    let expr = constancy::choice(alloc, test.expr, as_pointer(x), as_pointer(y))?;
    Ok(Value { ty, expr })
}

/// Two results in their common type (C11 6.5.15p5).
fn chosen_number(alloc: Global, test: Value, x: Value, y: Value) -> Result<Value, NoMemory>
    ensures { (types : Table) → IfOk result (λ r. value_in types r
        ≡ c.of_integer (c.common (type_of x.ty) (type_of y.ty)) (p.Choose
        (expr_of types test.expr.tree)
        (c.as_integer (c.common (type_of x.ty) (type_of y.ty)) (value_in types x))
        (c.as_integer (c.common (type_of x.ty) (type_of y.ty)) (value_in types y)))) }
{
    let ty = common(&x.ty, &y.ty);
    let first = as_integer(alloc, ty, x)?;
    let second = as_integer(alloc, ty, y)?;
    let tree = constancy::choice(alloc, test.expr, first, second)?;
    Ok(of_integer(ty, tree))
}

/// Two results of one type.
fn chosen_same(alloc: Global, test: Value, x: Value, y: Value) -> Result<Value, NoMemory>
    ensures { (types : Table) → IfOk result (λ r. value_in types r ≡ record {
      type = type_of x.ty;
      expr = p.Choose (expr_of types test.expr.tree) (expr_of types x.expr.tree)
          (expr_of types y.expr.tree);
    }) }
{
    let ty = x.ty;
    let expr = constancy::choice(alloc, test.expr, x.expr, y.expr)?;
    Ok(Value { ty, expr })
}

/// The value of `?:` (C11 6.5.15p5, p6).
pub fn chosen(alloc: Global, test: Value, x: Value, y: Value) -> Result<Value, NoMemory>
    ensures { (types : Table) → IfOk result (λ r. value_in types r ≡ c.chosen (structs_of types)
        (value_in types test) (value_in types x) (value_in types y)) }
{
    if has_pointer(&x.ty, &y.ty) {
        chosen_pointer(alloc, test, x, y)
    } else if is_integer(&x.ty) {
        chosen_number(alloc, test, x, y)
    } else {
        chosen_same(alloc, test, x, y)
    }
}

/// The value of `,` (C11 6.5.17).
pub fn joined(alloc: Global, x: Value, y: Value) -> Result<Value, NoMemory>
    ensures { (types : Table) → IfOk result
        (λ r. value_in types r ≡ c.joined (value_in types x) (value_in types y)) }
{
    let ty = y.ty;
    let first = Box::new(alloc, x.expr.tree)?;
    let second = Box::new(alloc, y.expr.tree)?;
    Ok(of_variable(ty, Expr::Comma(first, second)))
}
