//! Names (C11 6.5.1).
ghost use Rattle.std.specs.Prelude.{◌≡◌, ℕ, Bool, List, Some};
ghost use Rattle.im_ctype.specs.Table.{Table};
ghost use Rattle.im_ctype.specs.Types.{CType};
ghost use Rattle.im_typed.specs.ProgramOf.{place_of};
ghost use Rattle.im_check_conversions.specs.im_rules.Conversions as c;
ghost use Rattle.im_check_conversions.specs.im_rules.Demands as d;
ghost use Rattle.im_check_conversions.specs.im_rules.Scopes as s;
ghost use Rattle.im_types.specs.Shape.{type_of};
ghost use Rattle.im_check_operands.specs.Answers.{IsMade};
ghost use Rattle.im_check_scopes.specs.Contexts.{context_of};
ghost use Rattle.im_check_scopes.specs.Shape.{entity_of, scopes_of, storage_of};
ghost use Rattle.im_check_scopes.specs.declared.entity.Entry.{Entry};
ghost use Rattle.im_check_outline.specs.Outlines.{outline_in};
ghost use Rattle.im_check_name_forms.specs.Entities.{entity_asks};

use im_check_conversions::literal;
use im_check_operands::Term;
use im_check_outline::UnitOutline;
use im_check_scopes::{Entity, Scope, Storage};
use im_check_stop::{Stop, refused};
use im_ctype::Integer;
use im_typed::Place;
use im_types::{Type, copy};
use std::alloc::Global;

/// Whether an object that lies there has a definition: those of functions have one.
fn is_defined(unit: &UnitOutline, name: &[u8], storage: Storage) -> bool
    ensures { (es : List Entry) → (types : Table) → (next : ℕ) → (k : Bool) → (a : CType) → result
        ≡ d.is_object_defined (context_of es types next (outline_in unit.now)) name.now
        (Some (s.an_object k a (storage_of storage))) }
{
    match storage {
        Storage::Static(_) => unit.statics.contains(name),
        Storage::Local(_) => true,
    }
}

fn place_at(storage: Storage) -> Place
    ensures { (types : Table) → place_of types result ≡ c.stored (storage_of storage) }
{
    match storage {
        Storage::Static(n) => Place::Static(n),
        Storage::Local(n) => Place::Local(n),
    }
}

fn object_term(
    alloc: Global,
    unit: &UnitOutline,
    at: u32,
    name: &[u8],
    constant: bool,
    ty: &Type,
    storage: Storage,
) -> Result<Term, Stop>
    ensures { (es : List Entry) → (types : Table) → (next : ℕ) → IsMade types (entity_asks
        (context_of es types next (outline_in unit.now)) name.now
        (Some (s.an_object constant (type_of ty.now) (storage_of storage)))) (c.called
        (Some (s.an_object constant (type_of ty.now) (storage_of storage)))) at result }
{
    if !is_defined(unit, name, storage) {
        return Err(refused(12, at));
    }
    let kept = copy(alloc, ty)?;
    Ok(Term::Lvalue(constant, kept, place_at(storage)))
}

/// What an entity that is named gives: an object, or an enumeration constant.
fn entity_term(
    alloc: Global,
    unit: &UnitOutline,
    at: u32,
    name: &[u8],
    entity: &Entity,
) -> Result<Term, Stop>
    ensures { (es : List Entry) → (types : Table) → (next : ℕ) → IsMade types (entity_asks
        (context_of es types next (outline_in unit.now)) name.now (Some (entity_of entity.now)))
        (c.called (Some (entity_of entity.now))) at result }
{
    match entity {
        Entity::Object(constant, ty, storage) => {
            object_term(alloc, unit, at, name, *constant, ty, *storage)
        }
        Entity::Enumerator(z) => Ok(Term::Value(literal(Integer::Int, *z))),
        Entity::Function(_, _, _) | Entity::Typedef(_, _) => Err(refused(18, at)),
    }
}

/// An object or an enumeration constant by its name (C11 6.5.1p2).
pub fn name_term(
    alloc: Global,
    scope: &Scope,
    unit: &UnitOutline,
    at: u32,
    name: &[u8],
) -> Result<Term, Stop>
    ensures { (types : Table) → (next : ℕ) → IsMade types (d.name_asks
        (context_of scope.now types next (outline_in unit.now)) name.now)
        (c.called (s.meaning (scopes_of scope.now) name.now)) at result }
{
    match scope.meaning(name) {
        Some(entity) => entity_term(alloc, unit, at, name, entity),
        None => Err(refused(18, at)),
    }
}
