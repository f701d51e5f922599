//! Types whose lengths are written, and objects of complete types.
ghost use Rattle.std.specs.Prelude.{◌≡◌, not, ◌&&◌, ◌||◌};
ghost use Rattle.im_ctype.specs.Table.{structs_of};
ghost use Rattle.im_check_declarators.specs.im_rules.FileScope as f;
ghost use Rattle.im_check_declarators.specs.im_rules.Rules as u;
ghost use Rattle.im_check_scopes.specs.Shape.{entity_of};
ghost use Rattle.im_types.specs.Shape.{type_of};

use im_check_place::Structs;
use im_check_scopes::Entity;
use im_types::{Type, is_complete};

/// Whether an array lacks its length, also one in the result of a function.
fn has_unsized(ty: &Type) -> bool
    ensures { result ≡ u.has_unsized (type_of ty.now) }
{
    match ty {
        Type::Unsized(_) => true,
        Type::Array(element, _) => has_unsized(element),
        Type::Pointer(_, target) => has_unsized(target),
        Type::Function(returned, _) => has_unsized(returned),
        Type::Void | Type::Integer(_) | Type::Struct(_) => false,
    }
}

/// Whether only the outermost length is absent, and that only where it may be (rule 6).
pub(crate) fn has_lengths(ty: &Type, may_be_absent: bool) -> bool
    ensures { result ≡ u.rule_6_absent (type_of ty.now) may_be_absent }
{
    match ty {
        Type::Unsized(element) => may_be_absent && !has_unsized(element),
        Type::Array(_, _)
        | Type::Pointer(_, _)
        | Type::Function(_, _)
        | Type::Void
        | Type::Integer(_)
        | Type::Struct(_) => !has_unsized(ty),
    }
}

fn is_object(entity: &Entity) -> bool
    ensures { result ≡ f.is_object_entity (entity_of entity.now) }
{
    match entity {
        Entity::Object(_, _, _) => true,
        Entity::Function(_, _, _) | Entity::Enumerator(_) | Entity::Typedef(_, _) => false,
    }
}

fn is_complete_type(structs: &Structs, ty: &Type) -> bool
    ensures { result ≡ u.rule_5 (structs_of structs.now) (type_of ty.now) }
{
    is_complete(structs.count(), ty)
}

/// Whether it is no object of an incomplete type (rule 5).
pub(crate) fn is_whole_object(structs: &Structs, entity: &Entity, ty: &Type) -> bool
    ensures { result ≡ (not (f.is_object_entity (entity_of entity.now))
        || u.rule_5 (structs_of structs.now) (type_of ty.now)) }
{
    !is_object(entity) || is_complete_type(structs, ty)
}
