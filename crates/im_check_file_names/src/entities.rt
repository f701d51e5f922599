//! What names at file scope mean.
ghost use Rattle.std.specs.Prelude.{◌≡◌, IfOk};
ghost use Rattle.im_check_declarators.specs.im_rules.FileScope as f;
ghost use Rattle.im_check_declarators.specs.im_rules.Outline as o;
ghost use Rattle.im_check_declarators.specs.im_rules.Scopes as s;
ghost use Rattle.im_check_scopes.specs.Shape.{entity_of, callee_of};
ghost use Rattle.im_check_declarators.specs.im_ctree_parts.Lists.{list_from};
ghost use Rattle.im_types.specs.Shape.{type_of};
ghost use Rattle.im_check_outline.specs.Outlines.{outline_in};

use crate::names::same_name;
use im_check_name_map::NameList;
use im_check_outline::{UnitOutline, is_typedef};
use im_check_scopes::{Callee, Entity, Storage};
use im_ctree::Specifier;
use im_num::{NoMemory, beyond_memory};
use im_serve::Service;
use im_types::{Type, copy, is_function};
use std::alloc::Global;

fn number_in(name: &[u8], names: &NameList) -> Result<u32, NoMemory>
    ensures { IfOk result (λ n. n ≡ o.place_in name.now names.now) }
{
    match u32::try_from(names.place(name)) {
        Ok(number) => Ok(number),
        Err(_) => Err(beyond_memory()),
    }
}

fn callee(outline: &UnitOutline, name: &[u8]) -> Result<Callee, NoMemory>
    ensures { IfOk result (λ k. callee_of k ≡ f.callee_named (outline_in outline.now) name.now) }
{
    if same_name(Service::Getchar.name(), name) {
        return Ok(Callee::Service(Service::Getchar));
    }
    if same_name(Service::Putchar.name(), name) {
        return Ok(Callee::Service(Service::Putchar));
    }
    if !outline.bodies.contains(name) {
        return Ok(Callee::NoBody);
    }
    Ok(Callee::Body(number_in(name, &outline.bodies)?))
}

fn typedef_name(alloc: Global, constant: bool, ty: &Type) -> Result<Entity, NoMemory>
    ensures { IfOk result (λ e. entity_of e ≡ s.a_typedef constant (type_of ty.now)) }
{
    let kept = copy(alloc, ty)?;
    Ok(Entity::Typedef(constant, kept))
}

fn function(
    alloc: Global,
    outline: &UnitOutline,
    name: &[u8],
    constant: bool,
    ty: &Type,
) -> Result<Entity, NoMemory>
    ensures { IfOk result (λ e. entity_of e ≡ s.a_function
        (f.callee_named (outline_in outline.now) name.now) constant (type_of ty.now)) }
{
    let callee = callee(outline, name)?;
    let kept = copy(alloc, ty)?;
    Ok(Entity::Function(callee, constant, kept))
}

fn object(
    alloc: Global,
    outline: &UnitOutline,
    name: &[u8],
    constant: bool,
    ty: &Type,
) -> Result<Entity, NoMemory>
    ensures { IfOk result (λ e. entity_of e ≡ s.an_object constant (type_of ty.now)
        (s.static_object (o.place_in name.now (outline_in outline.now).statics))) }
{
    let number = number_in(name, &outline.statics)?;
    let kept = copy(alloc, ty)?;
    Ok(Entity::Object(constant, kept, Storage::Static(number)))
}

/// What a name means that is declared at file scope.
pub(crate) fn entity(
    alloc: Global,
    outline: &UnitOutline,
    specifiers: &[Specifier],
    name: &[u8],
    constant: bool,
    ty: &Type,
) -> Result<Entity, NoMemory>
    ensures { IfOk result (λ e. entity_of e ≡ f.file_entity (outline_in outline.now)
        (list_from specifiers.now) name.now constant (type_of ty.now)) }
{
    if is_typedef(specifiers) {
        return typedef_name(alloc, constant, ty);
    }
    if is_function(ty) {
        return function(alloc, outline, name, constant, ty);
    }
    object(alloc, outline, name, constant, ty)
}
