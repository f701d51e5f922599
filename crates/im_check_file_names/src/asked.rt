//! What is asked of a declarator at file scope (C11 6.7, 6.9).
ghost use Rattle.std.specs.Prelude.{◌≡◌, not, ◌&&◌, MatchResult};
ghost use Rattle.im_check_declarators.specs.im_rules.Demands.{Meets};
ghost use Rattle.im_check_declarators.specs.im_rules.Outline as o;
ghost use Rattle.im_check_declarators.specs.Shape.{declared_of};
ghost use Rattle.im_check_file_place.specs.Files.{file_place_of};
ghost use Rattle.im_check_file_names.specs.Asked.{asks_of};
ghost use Rattle.im_check_scopes.specs.Shape.{entity_of};
ghost use Rattle.im_check_stop.specs.Answers.{IsRefusal};
ghost use Rattle.im_types.specs.Shape.{type_of};

use crate::again::{keeps_type, may_repeat};
use crate::builtin::may_be_builtin;
use crate::sized::{has_lengths, is_whole_object};
use im_check_declarators::Declared;
use im_check_file_place::File;
use im_check_scopes::Entity;
use im_check_stop::{Stop, refused};
use im_types::Type;
use std::alloc::Global;

/// Whether an initialiser or a body may stand behind it (rule 2).
fn may_define(typedef: bool, whole: bool) -> bool
    ensures { result ≡ not (typedef && whole) }
{
    !(typedef && whole)
}

fn was_whole(file: &File, name: &[u8]) -> bool
    ensures { result ≡ o.is_in name.now (file_place_of file.now).whole }
{
    file.whole.contains(name)
}

/// Whether a name with this meaning may be declared at file scope. `written` is declared as it is
/// written, and `ty` is its type with its length; `whole`, whether an initialiser or a body stands
/// behind it.
pub(crate) fn asked(
    alloc: Global,
    file: &File,
    at: u32,
    typedef: bool,
    name: &[u8],
    written: &Declared,
    ty: &Type,
    entity: &Entity,
    whole: bool,
) -> Result<(), Stop>
    ensures { let asked = asks_of (file_place_of file.now) typedef name.now
        (declared_of written.now) (type_of ty.now) (entity_of entity.now) whole in
        MatchResult result (λ _. Meets asked) (IsRefusal asked at) }
{
    if !may_define(typedef, whole) {
        return Err(refused(2, at));
    }
    if !may_repeat(
        &file.place.scope,
        name,
        entity,
        was_whole(file, name),
        whole,
    ) {
        return Err(refused(3, at));
    }
    if !keeps_type(&file.place.scope, name, entity) {
        return Err(refused(4, at));
    }
    if !has_lengths(&written.ty, whole) {
        return Err(refused(6, at));
    }
    if !is_whole_object(&file.place.structs, entity, ty) {
        return Err(refused(5, at));
    }
    if !may_be_builtin(alloc, typedef, name, written.constant, ty, whole)? {
        return Err(refused(12, at));
    }
    Ok(())
}
