//! Specifiers at file scope and of members (C11 6.7.2), with the lists that they declare.
ghost use Rattle.std.specs.Prelude.{◌∷◌, ℕ, List, MatchResult};
ghost use Rattle.im_ctree.specs.Tree as t;
ghost use Rattle.im_ctree.specs.declared.specifier.SpecifierWord.{SpecifierWord};
ghost use Rattle.im_rules.specs.TypedUnit.{Specify, NamesType, AreMembers};
ghost use Rattle.im_rules.specs.UnitBreaks as b;
ghost use Rattle.im_rules_limits.specs.Limits.{IsFileWithin};
ghost use Rattle.im_ctree_parts.specs.Lists.{specifier_in, specifiers_in, members_from};
ghost use Rattle.im_ctree_parts.specs.Lists as m;
ghost use Rattle.im_types.specs.Shape.{type_of};
ghost use Rattle.im_check_type_specifiers.specs.Specified.{qualified_of};
ghost use Rattle.im_check_file_place.specs.Files.{file_place_of};
ghost use Rattle.im_check_file_specifiers.specs.Answers.{IsFileFault, level_of, list_of};
ghost use Rattle.im_check_place.specs.Fields.{fields_of};
ghost use Rattle.im_check_file_specifiers.specs.Lists.{GoesOnMembers, plain, struct_type, tag_of};

use crate::enums::enumeration;
use crate::fields::with_fields;
use crate::level::Level;
use crate::lists::{begin, end, may_list, where_it_stands};
use crate::sizes::struct_fits;
use crate::unlisted::unlisted;
use crate::words::{is_list, may_stand};
use im_check_file_place::File;
use im_check_place::Field;
use im_check_stop::Stop;
use im_check_type_specifiers::{Qualified, has_const};
use im_ctree::{Member, Specifier, SpecifierKind, Specifiers};
use im_ctype::Integer;
use im_num::beyond_memory;
use im_types::Type;
use std::alloc::Global;

/// The type that specifiers name, with the lists that they declare (C11 6.7.2). It recurs as deep
/// as the tree is.
#[cycle(lists)]
pub fn specify(
    alloc: Global,
    level: Level,
    specifiers: &Specifiers,
    file: &mut File,
) -> Result<Qualified, Stop>
    ensures { let l = level_of level in MatchResult result
        (λ q. Specify l (file_place_of file.old) (list_of specifiers.now) (qualified_of q)
        (file_place_of file.new)
        × IsFileWithin (file_place_of file.old) (b.file_specifiers l (specifiers_in specifiers.now)))
        (IsFileFault (file_place_of file.old)
        (b.file_specifiers l (specifiers_in specifiers.now))) }
{
    may_stand(level, specifiers.at, &specifiers.items)?;
    for specifier in &specifiers.items {
        if is_list(specifier) {
            let ty = listed(alloc, specifier, file)?;
            return Ok(Qualified {
                constant: has_const(&specifiers.items),
                ty,
            });
        }
    }
    unlisted(alloc, specifiers.at, &specifiers.items, file)
}

/// The type of a struct or an enum with its list.
#[cycle(lists)]
fn listed(alloc: Global, specifier: &Specifier, file: &mut File) -> Result<Type, Stop>
    ensures { (first : ℕ) (ss : List t.Specifier) (ks : List SpecifierWord)
        → let all = specifier_in specifier.now ∷ ss in MatchResult result
        (λ ty. NamesType (file_place_of file.old) all ks (plain (type_of ty))
        (file_place_of file.new)
        × IsFileWithin (file_place_of file.old) (b.some_named first all))
        (IsFileFault (file_place_of file.old) (b.some_named first all)) }
{
    match &specifier.kind {
        SpecifierKind::Struct(tag, written) => {
            let number = structure(alloc, specifier.at, tag, written, file)?;
            Ok(Type::Struct(number))
        }
        SpecifierKind::Enum(tag, written) => {
            enumeration(alloc, specifier.at, tag, written, file)?;
            Ok(Type::Integer(Integer::Int))
        }
        _ => Err(Stop::from(beyond_memory())),
    }
}

/// The number of a struct with its list, whose first token is that one.
#[cycle(lists)]
fn structure(
    alloc: Global,
    at: u32,
    tag: &Option<Vec<u8>>,
    written: &[Member],
    file: &mut File,
) -> Result<u32, Stop>
    ensures { (first : ℕ) (ss : List t.Specifier) (ks : List SpecifierWord)
        → let all = t.struct_specifier at (tag_of tag.now) (members_from written.now) ∷ ss in
        MatchResult result
        (λ n. NamesType (file_place_of file.old) all ks (struct_type n) (file_place_of file.new)
        × IsFileWithin (file_place_of file.old) (b.some_named first all))
        (IsFileFault (file_place_of file.old) (b.some_named first all)) }
{
    let place = where_it_stands(file, tag);
    begin(alloc, at, tag, file)?;
    let fields = members(alloc, written, file)?;
    may_list(alloc, place, at, &fields)?;
    let number = end(alloc, &fields, file)?;
    struct_fits(file.place.structs.table(), &fields, number)?;
    Ok(number)
}

/// The members of a list, in order.
#[cycle(lists)]
fn members(alloc: Global, written: &[Member], file: &mut File) -> Result<Vec<Field>, Stop>
    ensures { let ms = members_from written.now in MatchResult result
        (λ fields. AreMembers (file_place_of file.old) ms (fields_of fields.items)
        (file_place_of file.new) × IsFileWithin (file_place_of file.old) (b.some_members ms))
        (IsFileFault (file_place_of file.old) (b.some_members ms)) }
{
    let mut fields = Vec::new(alloc);
    for member in written {
        with_member(alloc, member, &mut fields, file)?;
    }
    Ok(fields)
}

/// Adds the members of one declaration.
#[cycle(lists)]
fn with_member(
    alloc: Global,
    member: &Member,
    fields: &mut Vec<Field>,
    file: &mut File,
) -> Result<(), Stop>
    ensures { (rest : t.Members) → let all = m.with_member member.now rest in MatchResult result
        (λ _. GoesOnMembers (file_place_of file.old) all fields.old.items fields.new.items rest
        (file_place_of file.new))
        (IsFileFault (file_place_of file.old) (b.some_members all)) }
{
    let q = specify(alloc, Level::Members, &member.specifiers, file)?;
    with_fields(alloc, &q, &member.declarators, fields, file)
}
