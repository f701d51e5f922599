//! The members that one declaration declares (C11 6.7.2.1).
ghost use Rattle.std.specs.Prelude.{◌≡◌, ◌++◌, MatchResult, IfOk, IfErr};
ghost use Rattle.im_ctree.specs.Tree as t;
ghost use Rattle.im_ctree.specs.Shape.{declarator_of};
ghost use Rattle.im_ctype.specs.Table.{structs_of};
ghost use Rattle.im_rules.specs.Demands.{Meets};
ghost use Rattle.im_rules.specs.FileScope as f;
ghost use Rattle.im_rules.specs.Rules as u;
ghost use Rattle.im_rules.specs.Statements.{name_of as name_in};
ghost use Rattle.im_rules.specs.UnitBreaks.{some_fields};
ghost use Rattle.im_check_stop.specs.Answers.{IsRefusal};
ghost use Rattle.im_check_stop.specs.declared.stop.Stop.TheVariants.{Memory};
ghost use Rattle.im_ctree_parts.specs.Lists.{declarators_from};
ghost use Rattle.im_types.specs.Shape.{type_of};
ghost use Rattle.im_check_type_specifiers.specs.Specified.{qualified_of};
ghost use Rattle.im_check_declarators.specs.Shape.{declared_of, name_of};
ghost use Rattle.im_check_file_place.specs.Files.{file_place_of};
ghost use Rattle.im_check_file_specifiers.specs.Answers.{IsFileFault};
ghost use Rattle.im_check_place.specs.Fields.{field_of};
ghost use Rattle.im_check_file_specifiers.specs.Lists.{FieldsAdded, GoesOnFields};

use im_check_declarators::Declared;
use im_check_expressions::declarator;
use im_check_file_place::File;
use im_check_place::{Field, Structs};
use im_check_stop::{Stop, refused};
use im_check_texts::append_declarator;
use im_check_type_specifiers::Qualified;
use im_ctree::{Declarator, Name};
use im_num::NoMemory;
use im_types::{Type, copy, is_complete};
use std::alloc::Global;

/// Whether an array without a written length is part of a type.
fn has_unsized(ty: &Type) -> bool
    ensures { result ≡ u.has_unsized (type_of ty.now) }
{
    match ty {
        Type::Unsized(_) => true,
        Type::Array(element, _) => has_unsized(element),
        Type::Pointer(_, target) => has_unsized(target),
        Type::Function(returned, _) => has_unsized(returned),
        Type::Void | Type::Integer(_) | Type::Struct(_) => false,
    }
}

/// A member has lengths and a complete object type.
fn asked(structs: &Structs, at: u32, y: &Declared) -> Result<(), Stop>
    ensures asked { let asked = f.member_asks (structs_of structs.now) (declared_of y.now) in
        MatchResult result (λ _. Meets asked) (IsRefusal asked at) }
    ensures spared { IfErr result (λ stop. stop ≡ Memory → ⊥) }
{
    if has_unsized(&y.ty) {
        return Err(refused(6, at));
    }
    if !is_complete(structs.count(), &y.ty) {
        return Err(refused(5, at));
    }
    Ok(())
}

/// The name that is declared; empty where there is none.
fn name_or_none(alloc: Global, name: Option<Name>) -> Vec<u8>
    ensures { result.items ≡ name_in (name_of name) }
{
    match name {
        Some(x) => x,
        None => Vec::new(alloc),
    }
}

fn field(alloc: Global, y: Declared) -> Field
    ensures { field_of result ≡ f.member_of (declared_of y) }
{
    let Declared { name, constant, ty } = y;
    Field {
        name: name_or_none(alloc, name),
        constant,
        ty,
    }
}

fn once_more(alloc: Global, q: &Qualified) -> Result<Qualified, NoMemory>
    ensures { IfOk result (λ r. qualified_of r ≡ qualified_of q.now) }
{
    Ok(Qualified {
        constant: q.constant,
        ty: copy(alloc, &q.ty)?,
    })
}

/// Adds the member that a declarator declares, of the type that its specifiers name.
fn with_field(
    alloc: Global,
    q: &Qualified,
    d: &Declarator,
    fields: &mut Vec<Field>,
    file: &mut File,
) -> Result<(), Stop>
    ensures { (rest : t.Declarators) → let all = t.more_declarators (declarator_of d.now) rest in
        MatchResult result (λ _. GoesOnFields (qualified_of q.now) (file_place_of file.old) all
        fields.old.items fields.new.items rest (file_place_of file.new))
        (IsFileFault (file_place_of file.old) (some_fields (qualified_of q.now) all)) }
{
    let base = once_more(alloc, q)?;
    let y = declarator(alloc, base, d, &mut file.place)?;
    append_declarator(alloc, d, &mut file.texts)?;
    asked(&file.place.structs, d.at, &y)?;
    fields.push(field(alloc, y))?;
    Ok(())
}

/// Adds the members that declarators declare, of the type that their specifiers name.
pub fn with_fields(
    alloc: Global,
    q: &Qualified,
    declarators: &[Declarator],
    fields: &mut Vec<Field>,
    file: &mut File,
) -> Result<(), Stop>
    ensures { let ds = declarators_from declarators.now in
        MatchResult result (λ _. FieldsAdded (qualified_of q.now) (file_place_of file.old) ds
        fields.old.items fields.new.items (file_place_of file.new))
        (IsFileFault (file_place_of file.old) (some_fields (qualified_of q.now) ds)) }
{
    for d in declarators {
        with_field(alloc, q, d, fields, file)?;
    }
    Ok(())
}
