//! Objects that are declared in a block (C11 6.7).
ghost use Rattle.std.specs.Prelude.{◌≡◌, ℕ, MatchResult};
ghost use Rattle.im_ctree.specs.Shape.{maybe_initializer_of};
ghost use Rattle.im_rules.specs.Demands.{Meets};
ghost use Rattle.im_rules.specs.Initialisers.{completed as completed_type};
ghost use Rattle.im_rules.specs.Outline.{is_initialised};
ghost use Rattle.im_check_stop.specs.Answers.{IsRefusal, IsNoRule};
ghost use Rattle.im_types.specs.Shape.{type_of};
ghost use Rattle.im_check_type_specifiers.specs.Specified.{qualified_of};
ghost use Rattle.im_check_declarators.specs.Shape.{declared_of};
ghost use Rattle.im_rules.specs.Statements.{name_of};
ghost use Rattle.std.specs.Option.{option_map};
ghost use Rattle.im_check_locals.specs.Objects.{object_asks, IsObject, IsKept, LocalDone};
ghost use Rattle.im_check_locals.specs.Objects.{IsLocalFault};

use crate::asked::{has_lengths, name_asked};
use crate::read::{begun, declared};
use im_check_declarators::Declared;
use im_check_place::Place;
use im_check_scopes::{Entity, Storage};
use im_check_shapes::completed;
use im_check_sites::{Body, Local};
use im_check_sizes::all_fit;
use im_check_stop::{Stop, refused};
use im_check_type_specifiers::Qualified;
use im_ctree::{InitDeclarator, Initializer, Name};
use im_num::beyond_memory;
use im_typed::Stmt;
use im_types::{Type, copy, is_complete};
use std::alloc::Global;

/// An object: its name, whether it or its elements are const, and its type.
#[derive(Drop)]
pub(crate) struct Object {
    pub(crate) name: Name,
    pub(crate) constant: bool,
    pub(crate) ty: Type,
}

/// A name, empty where there is none.
fn named(alloc: Global, name: Option<Name>) -> Name
    ensures { result.items ≡ name_of (option_map (λ x. x.items) name) }
{
    match name {
        Some(x) => x,
        None => Vec::new(alloc),
    }
}

/// The object that a declarator declares, where the rules have nothing against it; `at` is its
/// first token.
fn declared_object(
    alloc: Global,
    at: u32,
    written: Declared,
    initializer: &Option<Initializer>,
    place: &Place,
) -> Result<Object, Stop>
    ensures { (n : ℕ) → let y = declared_of written in let i = maybe_initializer_of initializer.now in
        let asked = object_asks place.now n y (completed_type y.type i) (is_initialised i) in
        MatchResult result (λ o. Meets asked × IsObject y i o) (IsRefusal asked at) }
{
    let Declared { name, constant, ty } = written;
    let name = named(alloc, name);
    name_asked(&place.scope, at, &name)?;
    if !has_lengths(&ty, initializer.is_some()) {
        return Err(refused(6, at));
    }
    let ty = completed(ty, initializer);
    if !is_complete(place.structs.count(), &ty) {
        return Err(refused(5, at));
    }
    Ok(Object { name, constant, ty })
}

/// The object is behind the others, and its name in scope. Answers its number.
fn keep(alloc: Global, object: &Object, body: &mut Body) -> Result<u32, Stop>
    ensures { MatchResult result (IsKept body.old body.new object.now) IsNoRule }
{
    let Ok(number) = u32::try_from(body.locals.len()) else {
        return Err(Stop::from(beyond_memory()));
    };
    let known = Vec::from_slice(alloc, &object.name)?;
    let meant = Entity::Object(
        object.constant,
        copy(alloc, &object.ty)?,
        Storage::Local(number),
    );
    body.place.scope.declare(alloc, known, meant)?;
    let name = Vec::from_slice(alloc, &object.name)?;
    let ty = copy(alloc, &object.ty)?;
    body.locals.push(Local { name, ty })?;
    Ok(number)
}

/// A declarator with its initialiser; the object's type, and those within it, are within the limit
/// of sizes.
pub(crate) fn local(
    alloc: Global,
    q: Qualified,
    x: &InitDeclarator,
    body: &mut Body,
) -> Result<Stmt, Stop>
    ensures { MatchResult result (LocalDone (qualified_of q) body.old body.new x.now)
        (IsLocalFault (qualified_of q) body.old x.now) }
{
    let written = declared(alloc, q, &x.declarator, body)?;
    let object = declared_object(alloc, x.declarator.at, written, &x.initializer, &body.place)?;
    all_fit(body.place.structs.table(), &object.ty)?;
    let number = keep(alloc, &object, body)?;
    begun(alloc, number, &object.ty, &x.initializer, body)
}
