//! Declarators at file scope.
ghost use Rattle.std.specs.Prelude.{◌≡◌, reverse, MatchResult, OnOk};
ghost use Rattle.im_check_declarators.specs.im_rules.Demands.{Meets};
ghost use Rattle.im_check_declarators.specs.im_rules.FileScope as f;
ghost use Rattle.im_check_declarators.specs.Shape.{declared_of};
ghost use Rattle.im_check_file_names.specs.Asked.{with_whole, with_name};
ghost use Rattle.im_check_file_names.specs.Kept.{KeepsOthers};
ghost use Rattle.im_check_file_place.specs.Files.{file_place_of};
ghost use Rattle.im_check_scopes.specs.Shape.{entity_of};
ghost use Rattle.im_check_stop.specs.Answers.{IsRefusal};
ghost use Rattle.im_check_declarators.specs.im_ctree_parts.Lists.{list_from};
ghost use Rattle.im_types.specs.Shape.{type_of};

use crate::asked::asked;
use crate::entities::entity;
use crate::names::name_in;
use im_check_declarators::Declared;
use im_check_file_place::File;
use im_check_name_map::NameList;
use im_check_outline::is_typedef;
use im_check_scopes::Entity;
use im_check_stop::Stop;
use im_ctree::Specifier;
use im_num::NoMemory;
use im_types::Type;
use std::alloc::Global;

/// Keeps a name that has a body or an initialiser.
fn keep(alloc: Global, name: &[u8], whole: bool, names: &mut NameList) -> Result<(), NoMemory>
    ensures { OnOk result (reverse names.new ≡ with_whole whole name.now (reverse names.old)) }
{
    if whole {
        names.push(alloc, name)?;
    }
    Ok(())
}

fn declare(
    alloc: Global,
    name: &[u8],
    entity: Entity,
    whole: bool,
    file: &mut File,
) -> Result<(), NoMemory>
    ensures declared { OnOk result (file_place_of file.new
        ≡ with_name name.now (entity_of entity) whole (file_place_of file.old)) }
    ensures others { OnOk result (KeepsOthers file.old file.new) }
{
    keep(alloc, name, whole, &mut file.whole)?;
    let known = Vec::from_slice(alloc, name)?;
    file.place.scope.declare(alloc, known, entity)
}

/// Declares at file scope what a declarator declares, whose first token is that one, if it may be
/// declared there. `ty` is its type with its length; `whole`, whether an initialiser or a body
/// stands behind it.
pub fn declared_in_file(
    alloc: Global,
    specifiers: &[Specifier],
    at: u32,
    y: &Declared,
    ty: &Type,
    whole: bool,
    file: &mut File,
) -> Result<(), Stop>
    ensures asked { let asked = f.file_asks (file_place_of file.old) (list_from specifiers.now)
        (declared_of y.now) (type_of ty.now) whole in
        MatchResult result (λ _. Meets asked) (IsRefusal asked at) }
    ensures declared { OnOk result (file_place_of file.new ≡ f.with_declared
        (list_from specifiers.now) (declared_of y.now) (type_of ty.now) whole
        (file_place_of file.old)) }
    ensures others { OnOk result (KeepsOthers file.old file.new) }
{
    let name = name_in(y);
    let typedef = is_typedef(specifiers);
    let meaning = entity(alloc, &file.place.outline, specifiers, name, y.constant, ty)?;
    asked(alloc, file, at, typedef, name, y, ty, &meaning, whole)?;
    declare(alloc, name, meaning, whole, file)?;
    Ok(())
}
