//! Whether types are the same (C11 6.2.7).
ghost use Rattle.std.specs.Prelude.{◌≡◌, ◌&&◌, Bool};
ghost use Rattle.im_ctype.specs.Types as t;
ghost use Rattle.im_types.specs.Compared.{same_result, same_parameters};
ghost use Rattle.im_types.specs.Shape.{type_of, types_in};

use crate::tree::Type;
use im_ctype::Integer;

/// Whether both hold or neither does.
pub fn same_bool(first: bool, second: bool) -> bool
    ensures { result ≡ t.same_bool first second }
{
    if first { second } else { !second }
}

fn integer_number(ty: Integer) -> u8
    ensures { result ≡ t.integer_number ty }
{
    match ty {
        Integer::Char => 0,
        Integer::SignedChar => 1,
        Integer::UnsignedChar => 2,
        Integer::Short => 3,
        Integer::UnsignedShort => 4,
        Integer::Int => 5,
        Integer::UnsignedInt => 6,
        Integer::Long => 7,
        Integer::UnsignedLong => 8,
    }
}

fn same_integer(first: Integer, second: Integer) -> bool
    ensures { result ≡ t.same_integer first second }
{
    integer_number(first) == integer_number(second)
}

fn is_void_too(other: &Type) -> bool
    ensures { result ≡ t.same_type t.void (type_of other.now) }
{
    match other {
        Type::Void => true,
        Type::Integer(_)
        | Type::Pointer(_, _)
        | Type::Array(_, _)
        | Type::Unsized(_)
        | Type::Struct(_)
        | Type::Function(_, _) => false,
    }
}

fn is_integer_too(ty: Integer, other: &Type) -> bool
    ensures { result ≡ t.same_type (t.integer ty) (type_of other.now) }
{
    match other {
        Type::Integer(i) => same_integer(ty, *i),
        Type::Void
        | Type::Pointer(_, _)
        | Type::Array(_, _)
        | Type::Unsized(_)
        | Type::Struct(_)
        | Type::Function(_, _) => false,
    }
}

fn is_struct_too(number: u32, other: &Type) -> bool
    ensures { result ≡ t.same_type (t.struct number) (type_of other.now) }
{
    match other {
        Type::Struct(n) => number == *n,
        Type::Void
        | Type::Integer(_)
        | Type::Pointer(_, _)
        | Type::Array(_, _)
        | Type::Unsized(_)
        | Type::Function(_, _) => false,
    }
}

#[cycle(same)]
fn is_pointer_too(constant: bool, target: &Type, other: &Type) -> bool
    ensures { result ≡ t.same_type (t.pointer constant (type_of target.now)) (type_of other.now) }
{
    match other {
        Type::Pointer(c, to) => same_bool(constant, *c) && same(target, to),
        Type::Void
        | Type::Integer(_)
        | Type::Array(_, _)
        | Type::Unsized(_)
        | Type::Struct(_)
        | Type::Function(_, _) => false,
    }
}

#[cycle(same)]
fn is_array_too(element: &Type, count: u64, other: &Type) -> bool
    ensures { result ≡ t.same_type (t.array (type_of element.now) count) (type_of other.now) }
{
    match other {
        Type::Array(e, n) => count == *n && same(element, e),
        Type::Void
        | Type::Integer(_)
        | Type::Pointer(_, _)
        | Type::Unsized(_)
        | Type::Struct(_)
        | Type::Function(_, _) => false,
    }
}

#[cycle(same)]
fn is_unsized_too(element: &Type, other: &Type) -> bool
    ensures { result ≡ t.same_type (t.unsized (type_of element.now)) (type_of other.now) }
{
    match other {
        Type::Unsized(e) => same(element, e),
        Type::Void
        | Type::Integer(_)
        | Type::Pointer(_, _)
        | Type::Array(_, _)
        | Type::Struct(_)
        | Type::Function(_, _) => false,
    }
}

/// Whether it is a function type of that result.
#[cycle(same)]
fn is_result_too(returned: &Type, other: &Type) -> bool
    ensures { result ≡ same_result (type_of returned.now) (type_of other.now) }
{
    match other {
        Type::Function(r, _) => same(returned, r),
        Type::Void
        | Type::Integer(_)
        | Type::Pointer(_, _)
        | Type::Array(_, _)
        | Type::Unsized(_)
        | Type::Struct(_) => false,
    }
}

/// Whether it is a function type of those parameters.
#[cycle(same)]
fn are_parameters_too(parameters: &[Type], other: &Type) -> bool
    ensures { result ≡ same_parameters (types_in parameters.now) (type_of other.now) }
{
    match other {
        Type::Function(_, ps) => all_same(parameters, ps),
        Type::Void
        | Type::Integer(_)
        | Type::Pointer(_, _)
        | Type::Array(_, _)
        | Type::Unsized(_)
        | Type::Struct(_) => false,
    }
}

fn both(first: bool, second: bool) -> bool
    ensures { result ≡ (first && second) }
{
    first && second
}

/// Whether two types are equal in structure.
#[cycle(same)]
pub fn same(first: &Type, second: &Type) -> bool
    ensures { result ≡ t.same_type (type_of first.now) (type_of second.now) }
{
    match first {
        Type::Void => is_void_too(second),
        Type::Integer(ty) => is_integer_too(*ty, second),
        Type::Pointer(constant, target) => is_pointer_too(*constant, target, second),
        Type::Array(element, count) => is_array_too(element, *count, second),
        Type::Unsized(element) => is_unsized_too(element, second),
        Type::Struct(number) => is_struct_too(*number, second),
        Type::Function(returned, parameters) => both(
            is_result_too(returned, second),
            are_parameters_too(parameters, second),
        ),
    }
}

/// Whether each type is the same as the one at its place among the others.
#[cycle(same)]
fn all_same(first: &[Type], second: &[Type]) -> bool
    ensures { result ≡ t.same_types (types_in first.now) (types_in second.now) }
{
    if first.len() != second.len() {
        return false;
    }
    for (ty, other) in first.iter().zip(second) {
        if !same(ty, other) {
            return false;
        }
    }
    true
}

/// Whether it is a pointer to that type.
fn points_to(target: &Type, other: &Type) -> bool
    ensures { (c : Bool) → result ≡ t.are_like_pointers (t.pointer c (type_of target.now))
        (type_of other.now) }
{
    match other {
        Type::Pointer(_, to) => same(target, to),
        Type::Void
        | Type::Integer(_)
        | Type::Array(_, _)
        | Type::Unsized(_)
        | Type::Struct(_)
        | Type::Function(_, _) => false,
    }
}

/// Whether both are pointers to the same type, `const` aside.
pub fn are_like_pointers(first: &Type, second: &Type) -> bool
    ensures { result ≡ t.are_like_pointers (type_of first.now) (type_of second.now) }
{
    match first {
        Type::Pointer(_, target) => points_to(target, second),
        Type::Void
        | Type::Integer(_)
        | Type::Array(_, _)
        | Type::Unsized(_)
        | Type::Struct(_)
        | Type::Function(_, _) => false,
    }
}
