ghost use Rattle.std.specs.Prelude.{◌<◌, ◌^◌, length, map};
ghost use Rattle.im_tok.specs.declared.punctuator.Punctuator.TheVariants.{CloseBrace, Semicolon};
ghost use Rattle.im_word.specs.Shown.{shown};
ghost use Rattle.im_ctree.specs.Grammar.{IsMembers};
ghost use Rattle.im_parse_expression.specs.Parsing.{Parses, Anything, Closed};
ghost use Rattle.im_parse_expression.specs.Declaring.{IsMember, IsDeclarators, member_tree};
ghost use Rattle.im_parse_expression.specs.Declaring.{members_tree, declarators_tree};

use super::declarators::declarator;
use super::form::Form;
use super::look::{begins_specifiers, expect_mark};
use super::make;
use super::specifier::specifiers;
use im_ctree::{Declarator, Member};
use im_parse_core::{Stop, TypedefNames, after_mark};
use im_tok::Punctuator;
use im_word::Word;
use std::alloc::Global;

/// The members of a struct and the brace that closes them (C11 6.7.2.1), and the place behind all.
#[cycle(expression)]
pub fn closed_members(
    alloc: Global,
    words: &[Word],
    names: &TypedefNames,
    at: u32,
) -> Result<(Vec<Member>, u32), Stop>
    requires { length words.now < 2 ^ 32 }
    ensures { Parses members_tree (Closed CloseBrace (IsMembers names.now)) Anything
        (map shown words.now) at result }
{
    let mut items = Vec::new(alloc);
    let (first, mut next) = member(alloc, words, names, at)?;
    items.push(first)?;
    while begins_specifiers(words, names, next) {
        let (item, end) = member(alloc, words, names, next)?;
        items.push(item)?;
        next = end;
    }
    let end = expect_mark(words, next, Punctuator::CloseBrace)?;
    Ok((items, end))
}

/// A declaration of members (C11 6.7.2.1), and the place behind it.
#[cycle(expression)]
fn member(
    alloc: Global,
    words: &[Word],
    names: &TypedefNames,
    at: u32,
) -> Result<(Member, u32), Stop>
    requires { length words.now < 2 ^ 32 }
    ensures { Parses member_tree (IsMember names.now) Anything (map shown words.now) at result }
{
    let (specifiers, next) = specifiers(alloc, words, names, at)?;
    let (declarators, end) = closed_declarators(alloc, words, names, next)?;
    Ok((make::member(specifiers, declarators), end))
}

/// The declarators of members and the semicolon behind them (C11 6.7.2.1), and the place behind
/// all.
#[cycle(expression)]
fn closed_declarators(
    alloc: Global,
    words: &[Word],
    names: &TypedefNames,
    at: u32,
) -> Result<(Vec<Declarator>, u32), Stop>
    requires { length words.now < 2 ^ 32 }
    ensures { Parses declarators_tree (Closed Semicolon (IsDeclarators names.now))
        Anything (map shown words.now) at result }
{
    let mut items = Vec::new(alloc);
    let (first, mut next) = declarator(alloc, words, names, Form::Declared, at)?;
    items.push(first)?;
    while let Some(behind) = after_mark(words, next, Punctuator::Comma) {
        let (item, end) = declarator(alloc, words, names, Form::Declared, behind)?;
        items.push(item)?;
        next = end;
    }
    let end = expect_mark(words, next, Punctuator::Semicolon)?;
    Ok((items, end))
}
