ghost use Rattle.std.specs.Prelude.{◌≡◌, false, [], ◌∷◌, ◌++◌, OnOk};
ghost use Rattle.im_tok.specs.declared.keyword.Keyword.TheVariants as key;
ghost use Rattle.im_tok.specs.declared.punctuator.Punctuator.TheVariants as punctuator;
ghost use Rattle.im_word.specs.Words.{name, keyword, mark};
ghost use Rattle.im_ctree.specs.Shape.{declarator_of};
ghost use Rattle.im_print_relation.specs.Printed as printed;
ghost use Rattle.im_print_parts.specs.Output.{Writes, each, known};
ghost use Rattle.im_print_parts.specs.Parts as parts;
ghost use Rattle.im_ctree_parts.specs.Lists.{declarators_from, enumerators_from, list_from};
ghost use Rattle.im_ctree_parts.specs.Lists.{maybe_from, members_from};

use crate::commas::put_comma_if;
use crate::declarators::{put_declarator, put_in_parentheses};
use crate::expressions::put_at;
use crate::{begins_with_typedef, has_type, put_keyword, put_mark, put_name, specifier_keyword};
use im_ctree::{Declarator, Enumerator, Expression, Member, Name, Specifier, SpecifierKind};
use im_num::NoMemory;
use im_tok::{Keyword, Punctuator};

/// Writes declaration specifiers (C11 6.7).
#[cycle(printing)]
pub fn put_specifiers(
    out: &mut Vec<u8>,
    names: &[&[u8]],
    specifiers: &[Specifier],
) -> Result<(), NoMemory>
    ensures { OnOk result (Writes out.old.items out.new.items (printed.specifier_list
        (known names.now) (list_from specifiers.now))) }
{
    for specifier in specifiers {
        put_specifier(out, names, specifier)?;
    }
    Ok(())
}

#[cycle(printing)]
fn put_specifier(out: &mut Vec<u8>, names: &[&[u8]], specifier: &Specifier) -> Result<(), NoMemory>
    ensures { OnOk result (Writes out.old.items out.new.items
        (parts.specifier_words (known names.now) specifier.now)) }
{
    match &specifier.kind {
        SpecifierKind::Word(word) => put_keyword(out, specifier_keyword(*word)),
        SpecifierKind::TypedefName(name) => put_name(out, name),
        SpecifierKind::Struct(tag, members) => put_struct(out, names, tag, members),
        SpecifierKind::StructTag(name) => put_named(out, Keyword::Struct, name),
        SpecifierKind::Enum(tag, enumerators) => put_enum(out, names, tag, enumerators),
        SpecifierKind::EnumTag(name) => put_named(out, Keyword::Enum, name),
    }
}

/// Writes a keyword and a name behind it.
fn put_named(out: &mut Vec<u8>, word: Keyword, bytes: &[u8]) -> Result<(), NoMemory>
    ensures { OnOk result (Writes out.old.items out.new.items
        (keyword word ∷ name bytes.now ∷ [])) }
{
    put_keyword(out, word)?;
    put_name(out, bytes)?;
    Ok(())
}

/// Writes a keyword, and a tag behind it where there is one.
fn put_tag(out: &mut Vec<u8>, word: Keyword, tag: &Option<Name>) -> Result<(), NoMemory>
    ensures { OnOk result (Writes out.old.items out.new.items (parts.tag_words word tag.now)) }
{
    match tag {
        None => put_keyword(out, word),
        Some(name) => put_named(out, word, name),
    }
}

/// Writes a struct with its members (C11 6.7.2.1).
#[cycle(printing)]
fn put_struct(
    out: &mut Vec<u8>,
    names: &[&[u8]],
    tag: &Option<Name>,
    members: &[Member],
) -> Result<(), NoMemory>
    ensures { OnOk result (Writes out.old.items out.new.items (parts.tag_words key.Struct tag.now
        ++ (mark punctuator.OpenBrace ∷ (each (parts.member_words (known names.now)) members.now
        ++ (mark punctuator.CloseBrace ∷ []))))) }
{
    put_tag(out, Keyword::Struct, tag)?;
    put_mark(out, Punctuator::OpenBrace)?;
    put_members(out, names, members)?;
    put_mark(out, Punctuator::CloseBrace)?;
    Ok(())
}

/// Writes declarations of members.
#[cycle(printing)]
fn put_members(out: &mut Vec<u8>, names: &[&[u8]], members: &[Member]) -> Result<(), NoMemory>
    ensures { OnOk result (Writes out.old.items out.new.items
        (each (parts.member_words (known names.now)) members.now)) }
{
    for member in members {
        put_member_line(out, names, member)?;
    }
    Ok(())
}

/// Writes a declaration of members, and its semicolon.
#[cycle(printing)]
fn put_member_line(out: &mut Vec<u8>, names: &[&[u8]], member: &Member) -> Result<(), NoMemory>
    ensures { OnOk result (Writes out.old.items out.new.items
        (parts.member_words (known names.now) member.now)) }
{
    put_specifiers(out, names, &member.specifiers.items)?;
    let typed = has_type(&member.specifiers.items);
    put_declarators(out, names, typed, &member.declarators)?;
    put_mark(out, Punctuator::Semicolon)?;
    Ok(())
}

/// Writes declarators behind specifiers, with commas between them.
#[cycle(printing)]
fn put_declarators(
    out: &mut Vec<u8>,
    names: &[&[u8]],
    typed: bool,
    declarators: &[Declarator],
) -> Result<(), NoMemory>
    ensures { OnOk result (Writes out.old.items out.new.items (printed.declarators
        (known names.now) typed (declarators_from declarators.now))) }
{
    match declarators {
        [] => Ok(()),
        [first, rest @ ..] => {
            put_behind_specifiers(out, names, typed, first)?;
            put_next_declarators(out, names, rest)?;
            Ok(())
        }
    }
}

/// Writes declarators with a comma before each.
#[cycle(printing)]
fn put_next_declarators(
    out: &mut Vec<u8>,
    names: &[&[u8]],
    declarators: &[Declarator],
) -> Result<(), NoMemory>
    ensures { OnOk result (Writes out.old.items out.new.items
        (each (parts.next_declarator (known names.now)) declarators.now)) }
{
    for declarator in declarators {
        put_mark(out, Punctuator::Comma)?;
        put_declarator(out, names, declarator)?;
    }
    Ok(())
}

/// Writes the first declarator behind specifiers, in which a type stands if `typed` says so: if
/// none does, a typedef name that stood next would be one of them.
#[cycle(printing)]
pub fn put_behind_specifiers(
    out: &mut Vec<u8>,
    names: &[&[u8]],
    typed: bool,
    declarator: &Declarator,
) -> Result<(), NoMemory>
    ensures { OnOk result (Writes out.old.items out.new.items (printed.behind_specifiers
        (known names.now) typed (declarator_of declarator.now)
        (parts.declarator_words (known names.now) declarator.now))) }
{
    if !typed && begins_with_typedef(names, declarator) {
        return put_in_parentheses(out, names, declarator);
    }
    put_declarator(out, names, declarator)
}

/// Writes an enum with its enumerators (C11 6.7.2.2).
#[cycle(printing)]
fn put_enum(
    out: &mut Vec<u8>,
    names: &[&[u8]],
    tag: &Option<Name>,
    enumerators: &[Enumerator],
) -> Result<(), NoMemory>
    ensures { OnOk result (Writes out.old.items out.new.items (parts.tag_words key.Enum tag.now
        ++ (mark punctuator.OpenBrace ∷ (printed.enumerators (known names.now)
        (enumerators_from enumerators.now) ++ (mark punctuator.CloseBrace ∷ []))))) }
{
    put_tag(out, Keyword::Enum, tag)?;
    put_mark(out, Punctuator::OpenBrace)?;
    put_enumerators(out, names, enumerators)?;
    put_mark(out, Punctuator::CloseBrace)?;
    Ok(())
}

/// Writes enumerators with commas between them.
#[cycle(printing)]
fn put_enumerators(
    out: &mut Vec<u8>,
    names: &[&[u8]],
    enumerators: &[Enumerator],
) -> Result<(), NoMemory>
    ensures { OnOk result (Writes out.old.items out.new.items
        (parts.separated (parts.enumerator_words (known names.now)) false enumerators.now)) }
{
    let mut behind = false;
    for enumerator in enumerators {
        put_comma_if(out, behind)?;
        put_enumerator(out, names, enumerator)?;
        behind = true;
    }
    Ok(())
}

/// Writes an enumerator, with its value where one is written.
#[cycle(printing)]
fn put_enumerator(
    out: &mut Vec<u8>,
    names: &[&[u8]],
    enumerator: &Enumerator,
) -> Result<(), NoMemory>
    ensures { OnOk result (Writes out.old.items out.new.items
        (parts.enumerator_words (known names.now) enumerator.now)) }
{
    put_name(out, &enumerator.name)?;
    put_value(out, names, &enumerator.value)?;
    Ok(())
}

/// Writes `=` and the value of an enumerator, where one is written.
#[cycle(printing)]
fn put_value(
    out: &mut Vec<u8>,
    names: &[&[u8]],
    value: &Option<Box<Expression>>,
) -> Result<(), NoMemory>
    ensures { OnOk result (Writes out.old.items out.new.items (printed.enumerator_value
        (known names.now) (maybe_from value.now))) }
{
    match value {
        None => Ok(()),
        Some(expression) => {
            put_mark(out, Punctuator::Assign)?;
            put_at(out, names, 2, expression)?;
            Ok(())
        }
    }
}
