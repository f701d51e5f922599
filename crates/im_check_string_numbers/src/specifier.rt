//! Specifiers, with the members and enumerators that stand in them.
ghost use Rattle.std.specs.Prelude.{◌≡◌, ◌+◌, length, IfOk};
ghost use Rattle.im_ctree.specs.Tree as t;
ghost use Rattle.im_rules.specs.Strings.{strings_specified, strings_listed, strings_of_specifier};
ghost use Rattle.im_rules.specs.Strings.{strings_of_members, strings_of_enumerators};
ghost use Rattle.im_rules.specs.Strings.{strings_of_declarators};
ghost use Rattle.im_ctree_parts.specs.Lists.{specifiers_in, list_from, specifier_in, members_from};
ghost use Rattle.im_ctree_parts.specs.Lists.{with_member, enumerators_from, with_enumerator};
ghost use Rattle.im_ctree_parts.specs.Lists.{declarators_from};

use crate::declarator::behind_declarator;
use crate::expression::behind_expression_if_any;
use im_ctree::{Declarator, Enumerator, Member, Specifier, SpecifierKind, Specifiers};
use im_num::NoMemory;

/// The number of the next string literal behind specifiers (C11 6.7).
#[cycle(strings)]
pub fn behind_specifiers(next: u32, specifiers: &Specifiers) -> Result<u32, NoMemory>
    ensures { IfOk result
        (λ n. n ≡ next + length (strings_specified (specifiers_in specifiers.now))) }
{
    behind_listed(next, &specifiers.items)
}

#[cycle(strings)]
fn behind_listed(next: u32, specifiers: &[Specifier]) -> Result<u32, NoMemory>
    ensures { IfOk result (λ n. n ≡ next + length (strings_listed (list_from specifiers.now))) }
{
    let mut done = next;
    for specifier in specifiers {
        done = behind_specifier(done, specifier)?;
    }
    Ok(done)
}

#[cycle(strings)]
fn behind_specifier(next: u32, specifier: &Specifier) -> Result<u32, NoMemory>
    ensures { IfOk result
        (λ n. n ≡ next + length (strings_of_specifier (specifier_in specifier.now))) }
{
    match &specifier.kind {
        SpecifierKind::Struct(_, members) => behind_members(next, members),
        SpecifierKind::Enum(_, enumerators) => behind_enumerators(next, enumerators),
        SpecifierKind::Word(_)
        | SpecifierKind::TypedefName(_)
        | SpecifierKind::StructTag(_)
        | SpecifierKind::EnumTag(_) => Ok(next),
    }
}

#[cycle(strings)]
fn behind_members(next: u32, members: &[Member]) -> Result<u32, NoMemory>
    ensures { IfOk result (λ n. n ≡ next + length (strings_of_members (members_from members.now))) }
{
    let mut done = next;
    for member in members {
        done = behind_member(done, member)?;
    }
    Ok(done)
}

#[cycle(strings)]
fn behind_member(next: u32, member: &Member) -> Result<u32, NoMemory>
    ensures { IfOk result (λ n. (rest : t.Members) → n + length (strings_of_members rest)
        ≡ next + length (strings_of_members (with_member member.now rest))) }
{
    let inner = behind_specifiers(next, &member.specifiers)?;
    behind_declarators(inner, &member.declarators)
}

#[cycle(strings)]
fn behind_declarators(next: u32, declarators: &[Declarator]) -> Result<u32, NoMemory>
    ensures { IfOk result
        (λ n. n ≡ next + length (strings_of_declarators (declarators_from declarators.now))) }
{
    let mut done = next;
    for d in declarators {
        done = behind_declarator(done, d)?;
    }
    Ok(done)
}

#[cycle(strings)]
fn behind_enumerators(next: u32, enumerators: &[Enumerator]) -> Result<u32, NoMemory>
    ensures { IfOk result
        (λ n. n ≡ next + length (strings_of_enumerators (enumerators_from enumerators.now))) }
{
    let mut done = next;
    for enumerator in enumerators {
        done = behind_enumerator(done, enumerator)?;
    }
    Ok(done)
}

#[cycle(strings)]
fn behind_enumerator(next: u32, enumerator: &Enumerator) -> Result<u32, NoMemory>
    ensures { IfOk result (λ n. (rest : t.Enumerators) → n + length (strings_of_enumerators rest)
        ≡ next + length (strings_of_enumerators (with_enumerator enumerator.now rest))) }
{
    behind_expression_if_any(next, &enumerator.value)
}
