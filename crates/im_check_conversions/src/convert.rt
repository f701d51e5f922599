//! A value in the type that is wanted (C11 6.3.1, 6.3.2.3).
ghost use Rattle.std.specs.Prelude.{◌≡◌, IfOk};
ghost use Rattle.im_ctype.specs.Table.{Table};
ghost use Rattle.im_typed.specs.ProgramOf.{expr_of};
ghost use Rattle.im_check_operands.specs.im_rules.Conversions as c;
ghost use Rattle.im_types.specs.Shape.{type_of};
ghost use Rattle.im_check_constancy.specs.Told as t;
ghost use Rattle.im_check_constancy.specs.Told.{Told};
ghost use Rattle.im_check_operands.specs.Shape.{value_in};

use crate::kinds::{kind_in, same_kind};
use im_check_constancy::{Annotated, conversion, number, variable};
use im_check_operands::Value;
use im_ctype::Integer;
use im_num::NoMemory;
use im_store::Number;
use im_typed::Expr;
use im_types::{Type, is_pointer};
use std::alloc::Global;

/// A value of an integer type.
pub fn of_integer(ty: Integer, expr: Annotated) -> Value
    ensures { (types : Table) → value_in types result ≡ c.of_integer ty (expr_of types expr.tree) }
{
    Value {
        ty: Type::Integer(ty),
        expr,
    }
}

/// A constant of that type.
pub fn literal(ty: Integer, z: Number) -> Value
    ensures { (types : Table) → value_in types result ≡ c.literal ty z.value }
{
    of_integer(ty, number(ty.kind(), z))
}

/// A value that is no constant expression.
pub fn of_variable(ty: Type, tree: Expr) -> Value
    requires { (types : Table) → Told t.variable (expr_of types tree) }
    ensures { (types : Table) → value_in types result ≡ record
        { type = type_of ty; expr = expr_of types tree } }
{
    Value {
        ty,
        expr: variable(tree),
    }
}

/// A value in an integer type: a conversion is written where the kinds differ (C11 6.3.1.3).
pub fn as_integer(alloc: Global, ty: Integer, value: Value) -> Result<Annotated, NoMemory>
    ensures { (types : Table) → IfOk result
        (λ e. expr_of types e.tree ≡ c.as_integer ty (value_in types value)) }
{
    if same_kind(ty.kind(), kind_in(&value.ty)) {
        Ok(value.expr)
    } else {
        conversion(alloc, ty.kind(), value.expr)
    }
}

/// A value where a pointer is wanted: an integer there is null (C11 6.3.2.3p3).
pub fn as_pointer(value: Value) -> Annotated
    ensures { (types : Table) → expr_of types result.tree ≡ c.as_pointer (value_in types value) }
{
    if is_pointer(&value.ty) {
        value.expr
    } else {
        variable(Expr::Null)
    }
}

/// A value that fits a type, as that type.
pub fn as_type(alloc: Global, ty: &Type, value: Value) -> Result<Annotated, NoMemory>
    ensures { (types : Table) → IfOk result
        (λ e. expr_of types e.tree ≡ c.as_type (type_of ty.now) (value_in types value)) }
{
    match ty {
        Type::Integer(i) => as_integer(alloc, *i, value),
        Type::Pointer(_, _) => Ok(as_pointer(value)),
        Type::Void
        | Type::Array(_, _)
        | Type::Unsized(_)
        | Type::Struct(_)
        | Type::Function(_, _) => Ok(value.expr),
    }
}
