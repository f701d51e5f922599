//! Names that are declared more than once (C11 6.7p3, 6.7p4).
ghost use Rattle.std.specs.Prelude.{◌≡◌, true, Some, Bool};
ghost use Rattle.im_ctype.specs.Types as t;
ghost use Rattle.im_check_declarators.specs.im_rules.Rules as u;
ghost use Rattle.im_check_declarators.specs.im_rules.Scopes as s;
ghost use Rattle.im_check_scopes.specs.Shape.{scopes_of, entity_of};
ghost use Rattle.im_types.specs.Shape.{type_of};

use im_check_scopes::{Entity, Scope};
use im_types::{Type, same, same_bool};

fn agrees_with_object(constant: bool, ty: &Type, new: &Entity) -> bool
    ensures { (k : s.Storage) → result ≡ u.agrees (s.an_object constant (type_of ty.now) k)
        (entity_of new.now) }
{
    match new {
        Entity::Object(c, a, _) => same(ty, a) && same_bool(constant, *c),
        Entity::Function(_, _, _) | Entity::Enumerator(_) | Entity::Typedef(_, _) => false,
    }
}

fn agrees_with_function(constant: bool, ty: &Type, new: &Entity) -> bool
    ensures { (k : s.Callee) → result ≡ u.agrees (s.a_function k constant (type_of ty.now))
        (entity_of new.now) }
{
    match new {
        Entity::Function(_, c, a) => same(ty, a) && same_bool(constant, *c),
        Entity::Object(_, _, _) | Entity::Enumerator(_) | Entity::Typedef(_, _) => false,
    }
}

fn agrees_with_typedef(constant: bool, ty: &Type, new: &Entity) -> bool
    ensures { result ≡ u.agrees (s.a_typedef constant (type_of ty.now)) (entity_of new.now) }
{
    match new {
        Entity::Typedef(c, a) => same(ty, a) && same_bool(constant, *c),
        Entity::Object(_, _, _) | Entity::Function(_, _, _) | Entity::Enumerator(_) => false,
    }
}

/// Whether a name that is declared so may be declared so again.
fn agrees(old: &Entity, new: &Entity) -> bool
    ensures { result ≡ u.agrees (entity_of old.now) (entity_of new.now) }
{
    match old {
        Entity::Object(constant, ty, _) => agrees_with_object(*constant, ty, new),
        Entity::Function(_, constant, ty) => agrees_with_function(*constant, ty, new),
        Entity::Typedef(constant, ty) => agrees_with_typedef(*constant, ty, new),
        Entity::Enumerator(_) => false,
    }
}

/// Whether a name may be declared so at file scope (rule 3); `before` and `here` say whether it was
/// defined before and is defined here.
pub(crate) fn may_repeat(scope: &Scope, name: &[u8], new: &Entity, before: bool, here: bool) -> bool
    ensures { result ≡ u.rule_3 (s.meaning_here (scopes_of scope.now) name.now) (entity_of new.now)
        true before here }
{
    match scope.meaning_here(name) {
        None => true,
        Some(old) => agrees(old, new) && !(before && here),
    }
}

fn is_type(entity: &Entity) -> bool
    ensures { (c : Bool) (a : t.CType) → result
        ≡ u.rule_4 (Some (s.a_typedef c a)) (entity_of entity.now) }
{
    match entity {
        Entity::Typedef(_, _) => true,
        Entity::Object(_, _, _) | Entity::Function(_, _, _) | Entity::Enumerator(_) => false,
    }
}

/// Whether no typedef name is declared as something else (rule 4).
fn keeps(old: &Entity, new: &Entity) -> bool
    ensures { result ≡ u.rule_4 (Some (entity_of old.now)) (entity_of new.now) }
{
    match old {
        Entity::Typedef(_, _) => is_type(new),
        Entity::Object(_, _, _) | Entity::Function(_, _, _) | Entity::Enumerator(_) => true,
    }
}

/// Whether a name that means a type keeps to mean one (rule 4).
pub(crate) fn keeps_type(scope: &Scope, name: &[u8], new: &Entity) -> bool
    ensures { result ≡ u.rule_4 (s.meaning (scopes_of scope.now) name.now) (entity_of new.now) }
{
    match scope.meaning(name) {
        None => true,
        Some(old) => keeps(old, new),
    }
}
