//! Parameters in the scope of a function's body (C11 6.2.1p4).
ghost use Rattle.std.specs.Prelude.{◌≡◌, map, IfOk, OnOk};
ghost use Rattle.im_rules.specs.Declared as d;
ghost use Rattle.im_check_scopes.specs.Shape.{scopes_of};
ghost use Rattle.im_ctree_parts.specs.Lists.{parameters_from};
ghost use Rattle.im_check_type_specifiers.specs.Tags.{IsGrown};
ghost use Rattle.im_check_declarators.specs.Shape.{declared_of, object_by};
ghost use Rattle.im_check_place.specs.Contexts.{context_of};
ghost use Rattle.im_check_file_functions.specs.Bodies.{IsEntered, AreEntered};

use im_check_declarators::Declared;
use im_check_place::Place;
use im_check_scopes::{Entity, Scope, Storage};
use im_check_type_specifiers::mention;
use im_ctree::Parameter;
use im_num::{NoMemory, beyond_memory};
use im_types::copy;
use std::alloc::Global;

/// Declares the name of the parameter of that number.
fn declare(alloc: Global, number: u32, y: &Declared, scope: &mut Scope) -> Result<(), NoMemory>
    ensures scopes { OnOk result (scopes_of scope.new ≡ d.with_name (declared_of y.now).name
        (object_by number (declared_of y.now)) (scopes_of scope.old)) }
    ensures grown { OnOk result (IsGrown scope.old scope.new) }
{
    let Some(name) = &y.name else {
        return Ok(());
    };
    let known = Vec::from_slice(alloc, name)?;
    let ty = copy(alloc, &y.ty)?;
    scope.declare(
        alloc,
        known,
        Entity::Object(y.constant, ty, Storage::Local(number)),
    )
}

pub(crate) fn number_of(place: usize) -> Result<u32, NoMemory>
    ensures { IfOk result (λ n. n ≡ place) }
{
    match u32::try_from(place) {
        Ok(number) => Ok(number),
        Err(_) => Err(beyond_memory()),
    }
}

/// The parameter of that number is in scope, and a tag that it mentions first.
fn enter_one(
    alloc: Global,
    number: u32,
    written: &Parameter,
    y: &Declared,
    place: &mut Place,
) -> Result<(), NoMemory>
    ensures { OnOk result
        (IsEntered number written.now (declared_of y.now) place.old place.new) }
{
    mention(
        alloc,
        &mut place.scope,
        &place.outline.lists,
        &written.specifiers.items,
    )?;
    declare(alloc, number, y, &mut place.scope)?;
    Ok(())
}

/// Parameters are in the innermost scope, as they are declared.
pub(crate) fn enter(
    alloc: Global,
    written: &[Parameter],
    formals: &[Declared],
    place: &mut Place,
) -> Result<(), NoMemory>
    ensures { OnOk result (AreEntered place.old (parameters_from written.now)
        (map declared_of formals.now) place.new) }
{
    for (i, formal) in formals.iter().enumerate() {
        if i >= written.len() {
            return Ok(());
        }
        let number = number_of(i)?;
        enter_one(alloc, number, &written[i], formal, place)?;
    }
    Ok(())
}
