//! Values compared (C11 6.5.8, 6.5.9).
ghost use Rattle.std.specs.Prelude.{◌≡◌, ◌||◌, IfOk};
ghost use Rattle.im_ctype.specs.Table.{Table};
ghost use Rattle.im_ctype.specs.Types.{is_pointer, kind_of};
ghost use Rattle.im_num.specs.declared.kind.Kind.TheVariants.{Ptr};
ghost use Rattle.im_typed.specs.Program as p;
ghost use Rattle.im_check_operations.specs.im_rules.Conversions as c;
ghost use Rattle.im_types.specs.Shape.{type_of};
ghost use Rattle.im_check_operands.specs.Shape.{value_in};

use im_check_constancy as constancy;
use im_check_conversions::{as_integer, as_pointer, common, of_integer};
use im_check_operands::Value;
use im_ctype::Integer;
use im_num::{Kind, NoMemory};
use im_store::Comparison;
use im_types::{Type, is_pointer};
use std::alloc::Global;

/// Whether one of two types is a pointer.
pub fn has_pointer(x: &Type, y: &Type) -> bool
    ensures { result ≡ (is_pointer (type_of x.now) || is_pointer (type_of y.now)) }
{
    is_pointer(x) || is_pointer(y)
}

/// Two pointers compared, or a pointer and null.
fn compared_pointers(alloc: Global, op: Comparison, x: Value, y: Value) -> Result<Value, NoMemory>
    ensures { (types : Table) → IfOk result (λ r. value_in types r ≡ c.int_value (p.Compare op
        Ptr (c.as_pointer (value_in types x)) (c.as_pointer (value_in types y)))) }
{
    let left = as_pointer(x);
    let right = as_pointer(y);
    let tree = constancy::comparison(alloc, op, Kind::Ptr, left, right)?;
    Ok(of_integer(Integer::Int, tree))
}

/// Two integers compared in their common type.
fn compared_numbers(alloc: Global, op: Comparison, x: Value, y: Value) -> Result<Value, NoMemory>
    ensures { (types : Table) → IfOk result (λ r. value_in types r ≡ c.int_value (p.Compare op
        (kind_of (c.common (type_of x.ty) (type_of y.ty)))
        (c.as_integer (c.common (type_of x.ty) (type_of y.ty)) (value_in types x))
        (c.as_integer (c.common (type_of x.ty) (type_of y.ty)) (value_in types y)))) }
{
    let ty = common(&x.ty, &y.ty);
    let left = as_integer(alloc, ty, x)?;
    let right = as_integer(alloc, ty, y)?;
    let tree = constancy::comparison(alloc, op, ty.kind(), left, right)?;
    Ok(of_integer(Integer::Int, tree))
}

/// Two values compared (C11 6.5.8, 6.5.9).
pub fn comparison(alloc: Global, op: Comparison, x: Value, y: Value) -> Result<Value, NoMemory>
    ensures { (types : Table) → IfOk result
        (λ r. value_in types r ≡ c.comparison op (value_in types x) (value_in types y)) }
{
    if has_pointer(&x.ty, &y.ty) {
        compared_pointers(alloc, op, x, y)
    } else {
        compared_numbers(alloc, op, x, y)
    }
}
