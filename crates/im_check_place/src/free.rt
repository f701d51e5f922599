//! Whether structs are free of const (C11 6.3.2.1p1).
ghost use Rattle.std.specs.Prelude.{◌≡◌};
ghost use Rattle.im_check_scopes.specs.im_rules.Rules as u;
ghost use Rattle.im_types.specs.Shape.{type_of};
ghost use Rattle.im_check_place.specs.Fields.{fields_of};

use crate::field::Field;
use im_types::Type;

/// Whether no const is in the members of a type, by the structs before it.
fn is_free(done: &[bool], ty: &Type) -> bool
    ensures { result ≡ u.free_in done.now (type_of ty.now) }
{
    match ty {
        Type::Array(element, _) | Type::Unsized(element) => is_free(done, element),
        Type::Struct(number) => match done.get(*number as usize) {
            Some(free) => *free,
            None => true,
        },
        Type::Void | Type::Integer(_) | Type::Pointer(_, _) | Type::Function(_, _) => true,
    }
}

/// Whether members are free of const, by the structs before theirs.
pub(crate) fn are_free(done: &[bool], fields: &[Field]) -> bool
    ensures { result ≡ u.members_free done.now (fields_of fields.now) }
{
    for field in fields {
        if field.constant || !is_free(done, &field.ty) {
            return false;
        }
    }
    true
}
