//! What the rules ask of the type that an operand has as a value: an array is a pointer to its first element there.
ghost use Rattle.std.specs.Prelude.{◌≡◌, ◌&&◌, ◌||◌, Bool};
ghost use Rattle.im_ctype.specs.Table.{structs_of};
ghost use Rattle.im_ctype.specs.Types as t;
ghost use Rattle.im_check_constancy.specs.im_rules.Rules as u;
ghost use Rattle.im_check_constancy.specs.im_rules.TypeTests as q;
ghost use Rattle.im_types.specs.Shape.{type_of};
ghost use Rattle.im_check_operands.specs.Shape.{seen};

use crate::operand::Operand;
use im_ctype::TypeTable;
use im_types::{Type, is_complete, same, same_bool};

pub fn is_integer_value(v: &Operand) -> bool
    ensures { result ≡ t.is_integer (u.value_type (seen v.now)) }
{
    match v.ty {
        Type::Integer(_) => true,
        Type::Void
        | Type::Pointer(_, _)
        | Type::Array(_, _)
        | Type::Unsized(_)
        | Type::Struct(_)
        | Type::Function(_, _) => false,
    }
}

pub fn is_pointer_value(v: &Operand) -> bool
    ensures { result ≡ t.is_pointer (u.value_type (seen v.now)) }
{
    match v.ty {
        Type::Pointer(_, _) | Type::Array(_, _) | Type::Unsized(_) => true,
        Type::Void | Type::Integer(_) | Type::Struct(_) | Type::Function(_, _) => false,
    }
}

/// An integer or a pointer.
pub fn is_scalar_value(v: &Operand) -> bool
    ensures { result ≡ t.is_scalar (u.value_type (seen v.now)) }
{
    is_integer_value(v) || is_pointer_value(v)
}

/// The integer constant 0, which is null where a pointer is wanted (C11 6.3.2.3p3).
pub fn is_integer_null(v: &Operand) -> bool
    ensures { result ≡ u.is_integer_null (seen v.now) }
{
    is_integer_value(v) && v.is_null
}

pub fn is_complete_type(table: &TypeTable, ty: &Type) -> bool
    ensures { result ≡ q.is_complete_in (structs_of table.now) (type_of ty.now) }
{
    is_complete(table.struct_count(), ty)
}

/// A pointer to a complete type.
pub fn points_to_complete(table: &TypeTable, v: &Operand) -> bool
    ensures { result ≡ q.points_to_complete (structs_of table.now)
        (u.value_type (seen v.now)) }
{
    match v.ty {
        Type::Pointer(_, target) => is_complete_type(table, target),
        Type::Array(element, _) => is_complete_type(table, element),
        Type::Unsized(element) => is_complete_type(table, element),
        Type::Void | Type::Integer(_) | Type::Struct(_) | Type::Function(_, _) => false,
    }
}

/// Whether a value is a pointer to that type, `const` aside.
fn points_to(target: &Type, v: &Operand) -> bool
    ensures { (c : Bool) → result ≡ t.are_like_pointers
        (t.pointer c (type_of target.now)) (u.value_type (seen v.now)) }
{
    match v.ty {
        Type::Pointer(_, to) => same(target, to),
        Type::Array(element, _) => same(target, element),
        Type::Unsized(element) => same(target, element),
        Type::Void | Type::Integer(_) | Type::Struct(_) | Type::Function(_, _) => false,
    }
}

/// Pointers to the same type, `const` aside.
pub fn are_like_pointers(x: &Operand, y: &Operand) -> bool
    ensures { result ≡ t.are_like_pointers
        (u.value_type (seen x.now)) (u.value_type (seen y.now)) }
{
    match x.ty {
        Type::Pointer(_, target) => points_to(target, y),
        Type::Array(element, _) => points_to(element, y),
        Type::Unsized(element) => points_to(element, y),
        Type::Void | Type::Integer(_) | Type::Struct(_) | Type::Function(_, _) => false,
    }
}

/// Whether a value is a pointer to that type, and its target const just where that is so.
fn is_same_pointer(constant: bool, target: &Type, v: &Operand) -> bool
    ensures { result ≡ t.same_type (t.pointer constant (type_of target.now))
        (u.value_type (seen v.now)) }
{
    match v.ty {
        Type::Pointer(c, to) => same_bool(constant, *c) && same(target, to),
        Type::Array(element, _) => same_bool(constant, v.constant) && same(target, element),
        Type::Unsized(element) => same_bool(constant, v.constant) && same(target, element),
        Type::Void | Type::Integer(_) | Type::Struct(_) | Type::Function(_, _) => false,
    }
}

/// Pointers of the same type.
pub fn are_same_pointers(x: &Operand, y: &Operand) -> bool
    ensures { result ≡ (t.is_pointer (u.value_type (seen x.now)) &&
        t.same_type (u.value_type (seen x.now)) (u.value_type (seen y.now))) }
{
    match x.ty {
        Type::Pointer(c, target) => is_same_pointer(*c, target, y),
        Type::Array(element, _) => is_same_pointer(x.constant, element, y),
        Type::Unsized(element) => is_same_pointer(x.constant, element, y),
        Type::Void | Type::Integer(_) | Type::Struct(_) | Type::Function(_, _) => false,
    }
}

/// Whether a pointer to that type, const or not, takes the value: its target may have `const` in
/// addition (C11 6.5.16.1).
fn takes(constant: bool, target: &Type, v: &Operand) -> bool
    ensures { result ≡ u.pointer_fits (t.pointer constant (type_of target.now))
        (u.value_type (seen v.now)) }
{
    match v.ty {
        Type::Pointer(c, to) => same(target, to) && (constant || !*c),
        Type::Array(element, _) => same(target, element) && (constant || !v.constant),
        Type::Unsized(element) => same(target, element) && (constant || !v.constant),
        Type::Void | Type::Integer(_) | Type::Struct(_) | Type::Function(_, _) => false,
    }
}

/// Whether a value is a pointer that fits a type.
pub fn pointer_fits(ty: &Type, v: &Operand) -> bool
    ensures { result ≡ u.pointer_fits (type_of ty.now)
        (u.value_type (seen v.now)) }
{
    match ty {
        Type::Pointer(constant, target) => takes(*constant, target, v),
        Type::Void
        | Type::Integer(_)
        | Type::Array(_, _)
        | Type::Unsized(_)
        | Type::Struct(_)
        | Type::Function(_, _) => false,
    }
}

fn is_struct_value(number: u32, v: &Operand) -> bool
    ensures { result ≡ t.same_type (t.struct number)
        (u.value_type (seen v.now)) }
{
    match v.ty {
        Type::Struct(n) => number == *n,
        Type::Void
        | Type::Integer(_)
        | Type::Pointer(_, _)
        | Type::Array(_, _)
        | Type::Unsized(_)
        | Type::Function(_, _) => false,
    }
}

/// Whether a value is of that struct type.
pub fn is_of_struct(ty: &Type, v: &Operand) -> bool
    ensures { result ≡ (t.is_struct (type_of ty.now) &&
        t.same_type (type_of ty.now) (u.value_type (seen v.now))) }
{
    match ty {
        Type::Struct(number) => is_struct_value(*number, v),
        Type::Void
        | Type::Integer(_)
        | Type::Pointer(_, _)
        | Type::Array(_, _)
        | Type::Unsized(_)
        | Type::Function(_, _) => false,
    }
}
