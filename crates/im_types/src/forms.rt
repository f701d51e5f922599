//! What is asked of one type.
ghost use Rattle.std.specs.Prelude.{◌≡◌};
ghost use Rattle.im_ctype.specs.Types as t;
ghost use Rattle.im_types.specs.Shape.{type_of};

use crate::tree::Type;
use im_ctype::Integer;

pub fn is_void(ty: &Type) -> bool
    ensures { result ≡ t.is_void (type_of ty.now) }
{
    match ty {
        Type::Void => true,
        Type::Integer(_)
        | Type::Pointer(_, _)
        | Type::Array(_, _)
        | Type::Unsized(_)
        | Type::Struct(_)
        | Type::Function(_, _) => false,
    }
}

pub fn is_integer(ty: &Type) -> bool
    ensures { result ≡ t.is_integer (type_of ty.now) }
{
    match ty {
        Type::Integer(_) => true,
        Type::Void
        | Type::Pointer(_, _)
        | Type::Array(_, _)
        | Type::Unsized(_)
        | Type::Struct(_)
        | Type::Function(_, _) => false,
    }
}

fn is_character_type(ty: Integer) -> bool
    ensures { result ≡ t.is_character (t.integer ty) }
{
    match ty {
        Integer::Char | Integer::SignedChar | Integer::UnsignedChar => true,
        _ => false,
    }
}

/// A character type (C11 6.2.5p15).
pub fn is_character(ty: &Type) -> bool
    ensures { result ≡ t.is_character (type_of ty.now) }
{
    match ty {
        Type::Integer(i) => is_character_type(*i),
        Type::Void
        | Type::Pointer(_, _)
        | Type::Array(_, _)
        | Type::Unsized(_)
        | Type::Struct(_)
        | Type::Function(_, _) => false,
    }
}

pub fn is_pointer(ty: &Type) -> bool
    ensures { result ≡ t.is_pointer (type_of ty.now) }
{
    match ty {
        Type::Pointer(_, _) => true,
        Type::Void
        | Type::Integer(_)
        | Type::Array(_, _)
        | Type::Unsized(_)
        | Type::Struct(_)
        | Type::Function(_, _) => false,
    }
}

/// An array, of a written length or of none.
pub fn is_array(ty: &Type) -> bool
    ensures { result ≡ t.is_array (type_of ty.now) }
{
    match ty {
        Type::Array(_, _) | Type::Unsized(_) => true,
        Type::Void
        | Type::Integer(_)
        | Type::Pointer(_, _)
        | Type::Struct(_)
        | Type::Function(_, _) => false,
    }
}

pub fn is_struct(ty: &Type) -> bool
    ensures { result ≡ t.is_struct (type_of ty.now) }
{
    match ty {
        Type::Struct(_) => true,
        Type::Void
        | Type::Integer(_)
        | Type::Pointer(_, _)
        | Type::Array(_, _)
        | Type::Unsized(_)
        | Type::Function(_, _) => false,
    }
}

pub fn is_function(ty: &Type) -> bool
    ensures { result ≡ t.is_function (type_of ty.now) }
{
    match ty {
        Type::Function(_, _) => true,
        Type::Void
        | Type::Integer(_)
        | Type::Pointer(_, _)
        | Type::Array(_, _)
        | Type::Unsized(_)
        | Type::Struct(_) => false,
    }
}

/// An integer or a pointer (C11 6.2.5p21).
pub fn is_scalar(ty: &Type) -> bool
    ensures { result ≡ t.is_scalar (type_of ty.now) }
{
    is_integer(ty) || is_pointer(ty)
}

/// Whether it is a complete object type (C11 6.2.5p1, p22), where so many structs have their
/// member lists.
pub fn is_complete(known: usize, ty: &Type) -> bool
    ensures { result ≡ t.is_complete known (type_of ty.now) }
{
    match ty {
        Type::Integer(_) | Type::Pointer(_, _) => true,
        Type::Array(element, count) => *count > 0 && is_complete(known, element),
        Type::Struct(number) => (*number as usize) < known,
        Type::Void | Type::Unsized(_) | Type::Function(_, _) => false,
    }
}
