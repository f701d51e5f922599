//! The rules that ask of operands: `true` says that the rule has nothing against the node.
ghost use Rattle.std.specs.Prelude.{◌≡◌, ◌&&◌, not};
ghost use Rattle.im_ctype.specs.Table.{structs_of};
ghost use Rattle.im_ctype.specs.Types as t;
ghost use Rattle.im_check_constancy.specs.im_rules.Rules as u;
ghost use Rattle.im_types.specs.Shape.{type_of};
ghost use Rattle.im_check_operands.specs.Shape.{seen};

use crate::asked::{
    are_like_pointers, are_same_pointers, is_integer_null, is_integer_value, is_of_struct,
    is_pointer_value, is_scalar_value, pointer_fits, points_to_complete,
};
use crate::free::is_free;
use crate::operand::Operand;
use im_ctree::BinaryOp;
use im_ctype::TypeTable;
use im_types::{Type, is_array, is_integer, is_pointer, is_struct, is_void, same};

/// Whether the value fits a type (C11 6.5.16.1).
pub fn fits(ty: &Type, x: &Operand) -> bool
    ensures { result ≡ u.rule_17 (type_of ty.now) (seen x.now) }
{
    (is_integer(ty) && is_integer_value(x))
        || (pointer_fits(ty, x) || ((is_pointer(ty) && is_integer_null(x)) || is_of_struct(ty, x)))
}

/// Whether it may be changed, by the structs that have no `const` in them (C11 6.3.2.1p1).
pub fn is_open(free: &[bool], x: &Operand) -> bool
    ensures { result ≡ (not x.now.constant
        && (not (t.is_array (type_of x.now.ty.now)) && u.free_in free.now (type_of x.now.ty.now))) }
{
    !x.constant && (!is_array(x.ty) && is_free(free, x.ty))
}

/// A pointer to a complete type and an integer, in either order.
pub fn rule_20(table: &TypeTable, x: &Operand, y: &Operand) -> bool
    ensures { result ≡ u.rule_20 (structs_of table.now) (seen x.now)
        (seen y.now) }
{
    (points_to_complete(table, x) && is_integer_value(y))
        || (is_integer_value(x) && points_to_complete(table, y))
}

/// Two integers.
pub fn rule_26(x: &Operand, y: &Operand) -> bool
    ensures { result ≡ u.rule_26 (seen x.now)
        (seen y.now) }
{
    is_integer_value(x) && is_integer_value(y)
}

pub fn rule_27_subtract(table: &TypeTable, x: &Operand, y: &Operand) -> bool
    ensures { result ≡ u.rule_27_subtract (structs_of table.now) (seen x.now)
        (seen y.now) }
{
    rule_26(x, y)
        || (points_to_complete(table, x) && (is_integer_value(y) || are_like_pointers(x, y)))
}

pub fn rule_28(x: &Operand, y: &Operand) -> bool
    ensures { result ≡ u.rule_28 (seen x.now)
        (seen y.now) }
{
    rule_26(x, y) || are_like_pointers(x, y)
}

pub fn rule_29(x: &Operand, y: &Operand) -> bool
    ensures { result ≡ u.rule_29 (seen x.now)
        (seen y.now) }
{
    rule_28(x, y)
        || ((is_pointer_value(x) && is_integer_null(y))
            || (is_integer_null(x) && is_pointer_value(y)))
}

/// The number of the rule of an operator.
pub fn rule_of(op: BinaryOp) -> u32
    ensures { result ≡ u.rule_of op }
{
    match op {
        BinaryOp::Or | BinaryOp::And => 25,
        BinaryOp::Add | BinaryOp::Subtract => 27,
        BinaryOp::Less | BinaryOp::Greater | BinaryOp::LessEqual | BinaryOp::GreaterEqual => 28,
        BinaryOp::Equal | BinaryOp::NotEqual => 29,
        _ => 26,
    }
}

/// What the rule of an operator says of its operands (C11 6.5.5 to 6.5.14).
pub fn allows(table: &TypeTable, op: BinaryOp, x: &Operand, y: &Operand) -> bool
    ensures { result ≡ u.allows (structs_of table.now) op (seen x.now)
        (seen y.now) }
{
    match op {
        BinaryOp::Or | BinaryOp::And => is_scalar_value(x) && is_scalar_value(y),
        BinaryOp::Add => rule_26(x, y) || rule_20(table, x, y),
        BinaryOp::Subtract => rule_27_subtract(table, x, y),
        BinaryOp::Less | BinaryOp::Greater | BinaryOp::LessEqual | BinaryOp::GreaterEqual => {
            rule_28(x, y)
        }
        BinaryOp::Equal | BinaryOp::NotEqual => rule_29(x, y),
        BinaryOp::BitOr
        | BinaryOp::BitXor
        | BinaryOp::BitAnd
        | BinaryOp::ShiftLeft
        | BinaryOp::ShiftRight
        | BinaryOp::Multiply
        | BinaryOp::Divide
        | BinaryOp::Remainder => rule_26(x, y),
    }
}

/// Whether `a op= b` may stand (C11 6.5.16.2).
pub fn rule_30_assign(table: &TypeTable, op: BinaryOp, x: &Operand, y: &Operand) -> bool
    ensures { result ≡ u.rule_30_assign (structs_of table.now) op (seen x.now)
        (seen y.now) }
{
    allows(table, op, x, y)
        && ((is_integer_value(x) && is_integer_value(y))
            || (is_pointer_value(x) && is_integer_value(y)))
}

/// An integer or a pointer to a complete type.
pub fn rule_30_step(table: &TypeTable, x: &Operand) -> bool
    ensures { result ≡ u.rule_30_step (structs_of table.now) (seen x.now) }
{
    is_integer_value(x) || points_to_complete(table, x)
}

/// Whether the two can be the results of `?:` (C11 6.5.15p3).
pub fn rule_31(x: &Operand, y: &Operand) -> bool
    ensures { result ≡ u.rule_31 (seen x.now)
        (seen y.now) }
{
    rule_26(x, y)
        || ((is_void(x.ty) && is_void(y.ty))
            || ((is_struct(x.ty) && same(x.ty, y.ty))
                || (are_same_pointers(x, y)
                    || ((is_pointer_value(x) && is_integer_null(y))
                        || (is_integer_null(x) && is_pointer_value(y))))))
}

/// Whether the value can be cast to a type (C11 6.5.4).
pub fn rule_32(ty: &Type, x: &Operand) -> bool
    ensures { result ≡ u.rule_32 (type_of ty.now) (seen x.now) }
{
    is_void(ty) || (is_integer(ty) && is_integer_value(x))
}
