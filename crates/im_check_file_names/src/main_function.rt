//! `main` (C11 5.1.2.2.1).
ghost use Rattle.std.specs.Prelude.{◌≡◌, Some, None, MatchOption, MatchResult, IfOk};
ghost use Rattle.im_check_declarators.specs.im_rules.Demands.{Meets};
ghost use Rattle.im_check_declarators.specs.im_rules.FileScope as f;
ghost use Rattle.im_check_declarators.specs.im_rules.Rules as u;
ghost use Rattle.im_check_declarators.specs.im_rules.Scopes as s;
ghost use Rattle.im_check_scopes.specs.Shape.{scopes_of, entity_of};
ghost use Rattle.im_check_stop.specs.Answers.{IsRefusal};
ghost use Rattle.im_types.specs.Shape.{type_of};

use im_check_scopes::{Callee, Entity, Scope};
use im_check_stop::{Stop, refused};
use im_ctype::Integer;
use im_num::NoMemory;
use im_types::{Type, function_of, same};
use std::alloc::Global;

/// The type of a function that has a body and whose result isn't const.
fn type_with_body(entity: &Entity) -> Option<&Type>
    ensures { MatchOption result (f.body_type (Some (entity_of entity.now)) ≡ None)
        (λ ty. f.body_type (Some (entity_of entity.now)) ≡ Some (type_of ty.now)) }
{
    match entity {
        Entity::Function(Callee::Body(_), false, ty) => Some(ty),
        Entity::Function(_, _, _)
        | Entity::Object(_, _, _)
        | Entity::Enumerator(_)
        | Entity::Typedef(_, _) => None,
    }
}

/// Whether it is `int(void)`.
fn is_int_of_nothing(alloc: Global, ty: &Type) -> Result<bool, NoMemory>
    ensures { IfOk result (λ is. is ≡ u.rule_13 (Some (type_of ty.now))) }
{
    let own = function_of(alloc, Type::Integer(Integer::Int), Vec::new(alloc))?;
    Ok(same(ty, &own))
}

fn may_be_main(alloc: Global, entity: &Entity) -> Result<bool, NoMemory>
    ensures { IfOk result (λ may. may ≡ u.rule_13 (f.body_type (Some (entity_of entity.now)))) }
{
    match type_with_body(entity) {
        None => Ok(false),
        Some(ty) => is_int_of_nothing(alloc, ty),
    }
}

fn is_there(alloc: Global, scope: &Scope) -> Result<bool, NoMemory>
    ensures { IfOk result (λ is. is
        ≡ u.rule_13 (f.body_type (s.meaning (scopes_of scope.now) f.main_name))) }
{
    match scope.meaning(b"main") {
        None => Ok(false),
        Some(entity) => may_be_main(alloc, entity),
    }
}

/// Whether there is a body of `int main(void)`, by what names mean behind the unit; it is refused
/// at the unit's first token (rule 13).
pub fn has_main(alloc: Global, scope: &Scope) -> Result<(), Stop>
    ensures { MatchResult result (λ _. Meets (f.main_asks (scopes_of scope.now)))
        (IsRefusal (f.main_asks (scopes_of scope.now)) 0) }
{
    if !is_there(alloc, scope)? {
        return Err(refused(13, 0));
    }
    Ok(())
}
