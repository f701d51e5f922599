//! What unary operators and casts make of values (C11 6.5.3.3, 6.5.4).
ghost use Rattle.std.specs.Prelude.{◌≡◌, IfOk};
ghost use Rattle.im_ctype.specs.Table.{Table};
ghost use Rattle.im_typed.specs.Program as p;
ghost use Rattle.im_typed.specs.ProgramOf.{expr_of};
ghost use Rattle.im_check_operations.specs.im_rules.Conversions as c;
ghost use Rattle.im_types.specs.Shape.{type_of};
ghost use Rattle.im_check_operands.specs.Shape.{value_in};

use im_check_constancy as constancy;
use im_check_conversions::{as_integer, integer_in, integer_of, of_integer, of_variable, promoted};
use im_check_operands::Value;
use im_ctype::Integer;
use im_num::NoMemory;
use im_store as store;
use im_typed::Expr;
use im_types::Type;
use std::alloc::Global;

/// The value promoted.
pub fn promoted_value(alloc: Global, x: Value) -> Result<Value, NoMemory>
    ensures { (types : Table) → IfOk result
        (λ r. value_in types r ≡ c.promoted_value (value_in types x)) }
{
    let ty = promoted(integer_of(&x.ty));
    let tree = as_integer(alloc, ty, x)?;
    Ok(of_integer(ty, tree))
}

/// A unary operator on a promoted value (C11 6.5.3.3).
pub fn unary_operation(alloc: Global, op: store::UnaryOp, x: Value) -> Result<Value, NoMemory>
    ensures { (types : Table) → IfOk result
        (λ r. value_in types r ≡ c.unary_value op (value_in types x)) }
{
    let ty = promoted(integer_of(&x.ty));
    let operand = as_integer(alloc, ty, x)?;
    let tree = constancy::unary(alloc, op, ty.kind(), operand)?;
    Ok(of_integer(ty, tree))
}

/// `!` (C11 6.5.3.3p5).
pub fn negated(alloc: Global, x: Value) -> Result<Value, NoMemory>
    ensures { (types : Table) → IfOk result
        (λ r. value_in types r ≡ c.int_value (p.Not (value_in types x).expr)) }
{
    let tree = constancy::negation(alloc, x.expr)?;
    Ok(of_integer(Integer::Int, tree))
}

fn discarded(alloc: Global, ty: Type, x: Value) -> Result<Value, NoMemory>
    ensures { (types : Table) → IfOk result (λ r. value_in types r ≡ record
        { type = type_of ty; expr = p.Discard (expr_of types x.expr.tree) }) }
{
    let dropped = Box::new(alloc, x.expr.tree)?;
    Ok(of_variable(ty, Expr::Discard(dropped)))
}

fn cast_to(alloc: Global, ty: Integer, x: Value) -> Result<Value, NoMemory>
    ensures { (types : Table) → IfOk result
        (λ r. value_in types r ≡ c.of_integer ty (c.as_integer ty (value_in types x))) }
{
    let tree = as_integer(alloc, ty, x)?;
    Ok(of_integer(ty, tree))
}

/// The value of a cast (C11 6.5.4).
pub fn casted(alloc: Global, ty: Type, x: Value) -> Result<Value, NoMemory>
    ensures { (types : Table) → IfOk result
        (λ r. value_in types r ≡ c.casted (type_of ty) (value_in types x)) }
{
    match integer_in(&ty) {
        Some(i) => cast_to(alloc, i, x),
        None => discarded(alloc, ty, x),
    }
}
