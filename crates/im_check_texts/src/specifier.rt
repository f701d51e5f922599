//! Specifiers, with the members and enumerators that stand in them.
ghost use Rattle.std.specs.Prelude.{◌≡◌, ◌++◌, OnOk};
ghost use Rattle.im_ctree.specs.Tree as t;
ghost use Rattle.im_check_texts.specs.im_rules.Strings.{strings_specified, strings_listed};
ghost use Rattle.im_check_texts.specs.im_rules.Strings.{strings_of_specifier, strings_of_members};
ghost use Rattle.im_check_texts.specs.im_rules.Strings.{strings_of_enumerators};
ghost use Rattle.im_check_texts.specs.im_rules.Strings.{strings_of_declarators};
ghost use Rattle.im_ctree_parts.specs.Lists.{specifiers_in, list_from, specifier_in, members_from};
ghost use Rattle.im_ctree_parts.specs.Lists.{with_member, enumerators_from, with_enumerator};
ghost use Rattle.im_ctree_parts.specs.Lists.{declarators_from};
ghost use Rattle.im_check_texts.specs.Texts.{texts_in};

use crate::declarator::append_declarator;
use crate::expression::append_expression_if_any;
use im_ctree::{Declarator, Enumerator, Member, Specifier, SpecifierKind, Specifiers};
use im_num::NoMemory;
use std::alloc::Global;

/// Appends the string literals of specifiers (C11 6.7).
#[cycle(texts)]
pub fn append_specifiers(
    alloc: Global,
    specifiers: &Specifiers,
    texts: &mut Vec<Vec<u8>>,
) -> Result<(), NoMemory>
    ensures { OnOk result (texts_in texts.new.items ≡ texts_in texts.old.items
        ++ strings_specified (specifiers_in specifiers.now)) }
{
    append_listed(alloc, &specifiers.items, texts)
}

#[cycle(texts)]
fn append_listed(
    alloc: Global,
    specifiers: &[Specifier],
    texts: &mut Vec<Vec<u8>>,
) -> Result<(), NoMemory>
    ensures { OnOk result (texts_in texts.new.items ≡ texts_in texts.old.items
        ++ strings_listed (list_from specifiers.now)) }
{
    for specifier in specifiers {
        append_specifier(alloc, specifier, texts)?;
    }
    Ok(())
}

#[cycle(texts)]
fn append_specifier(
    alloc: Global,
    specifier: &Specifier,
    texts: &mut Vec<Vec<u8>>,
) -> Result<(), NoMemory>
    ensures { OnOk result (texts_in texts.new.items ≡ texts_in texts.old.items
        ++ strings_of_specifier (specifier_in specifier.now)) }
{
    match &specifier.kind {
        SpecifierKind::Struct(_, members) => append_members(alloc, members, texts),
        SpecifierKind::Enum(_, enumerators) => append_enumerators(alloc, enumerators, texts),
        SpecifierKind::Word(_)
        | SpecifierKind::TypedefName(_)
        | SpecifierKind::StructTag(_)
        | SpecifierKind::EnumTag(_) => Ok(()),
    }
}

#[cycle(texts)]
fn append_members(
    alloc: Global,
    members: &[Member],
    texts: &mut Vec<Vec<u8>>,
) -> Result<(), NoMemory>
    ensures { OnOk result (texts_in texts.new.items ≡ texts_in texts.old.items
        ++ strings_of_members (members_from members.now)) }
{
    for member in members {
        append_member(alloc, member, texts)?;
    }
    Ok(())
}

#[cycle(texts)]
fn append_member(alloc: Global, member: &Member, texts: &mut Vec<Vec<u8>>) -> Result<(), NoMemory>
    ensures { OnOk result ((rest : t.Members) → texts_in texts.new.items ++ strings_of_members rest
        ≡ texts_in texts.old.items ++ strings_of_members (with_member member.now rest)) }
{
    append_specifiers(alloc, &member.specifiers, texts)?;
    append_declarators(alloc, &member.declarators, texts)
}

#[cycle(texts)]
fn append_declarators(
    alloc: Global,
    declarators: &[Declarator],
    texts: &mut Vec<Vec<u8>>,
) -> Result<(), NoMemory>
    ensures { OnOk result (texts_in texts.new.items ≡ texts_in texts.old.items
        ++ strings_of_declarators (declarators_from declarators.now)) }
{
    for d in declarators {
        append_declarator(alloc, d, texts)?;
    }
    Ok(())
}

#[cycle(texts)]
fn append_enumerators(
    alloc: Global,
    enumerators: &[Enumerator],
    texts: &mut Vec<Vec<u8>>,
) -> Result<(), NoMemory>
    ensures { OnOk result (texts_in texts.new.items ≡ texts_in texts.old.items
        ++ strings_of_enumerators (enumerators_from enumerators.now)) }
{
    for enumerator in enumerators {
        append_enumerator(alloc, enumerator, texts)?;
    }
    Ok(())
}

#[cycle(texts)]
fn append_enumerator(
    alloc: Global,
    enumerator: &Enumerator,
    texts: &mut Vec<Vec<u8>>,
) -> Result<(), NoMemory>
    ensures { OnOk result ((rest : t.Enumerators) → texts_in texts.new.items ++ strings_of_enumerators rest
        ≡ texts_in texts.old.items ++ strings_of_enumerators (with_enumerator enumerator.now rest)) }
{
    append_expression_if_any(alloc, &enumerator.value, texts)
}
