//! Strings that initialise arrays (C11 6.7.9p14).
ghost use Rattle.std.specs.Prelude.{◌≡◌, ◌&&◌, nat_le, length};
ghost use Rattle.im_ctree.specs.Shape.{initializer_of};
ghost use Rattle.im_ctype.specs.Types as t;
ghost use Rattle.im_check_stop.specs.im_rules.Rules as u;
ghost use Rattle.im_types.specs.Shape.{type_of};

use crate::parts::string_in;
use im_ctree::Initializer;
use im_types::{Type, is_character};

fn fits_within(element: &Type, most: u64, bytes: &[u8]) -> bool
    ensures { result ≡ (t.is_character (type_of element.now) && nat_le (length bytes.now) most) }
{
    is_character(element) && bytes.len() as u64 <= most
}

/// A string of at most so many bytes, for elements of a character type.
pub(crate) fn is_string_within(element: &Type, most: u64, i: &Initializer) -> bool
    ensures { result ≡ u.is_string_for (t.array (type_of element.now) most)
        (initializer_of i.now) }
{
    match string_in(i) {
        Some(s) => fits_within(element, most, s),
        None => false,
    }
}

/// A string of any length, for elements of a character type.
pub(crate) fn is_open_string(element: &Type, i: &Initializer) -> bool
    ensures { result ≡ u.is_string_for (t.unsized (type_of element.now)) (initializer_of i.now) }
{
    match string_in(i) {
        Some(_) => is_character(element),
        None => false,
    }
}

/// Whether the initialiser is a string for an array of a character type (C11 6.7.9p14).
pub fn is_string_for(ty: &Type, i: &Initializer) -> bool
    ensures { result ≡ u.is_string_for (type_of ty.now) (initializer_of i.now) }
{
    match ty {
        Type::Array(element, count) => is_string_within(element, *count, i),
        Type::Unsized(element) => is_open_string(element, i),
        Type::Void
        | Type::Integer(_)
        | Type::Pointer(_, _)
        | Type::Struct(_)
        | Type::Function(_, _) => false,
    }
}
