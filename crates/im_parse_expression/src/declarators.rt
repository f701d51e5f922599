ghost use Rattle.std.specs.Prelude.{◌<◌, ◌^◌, length, map};
ghost use Rattle.im_word.specs.Shown.{shown};
ghost use Rattle.im_ctree.specs.Shape.{declarator_of};
ghost use Rattle.im_ctree.specs.Grammar.{IsSuffixes};
ghost use Rattle.im_parse_expression.specs.Parsing.{Parses, Below, Anything};
ghost use Rattle.im_parse_expression.specs.Declaring.{IsForm, IsMaybeForm, IsSuffix};
ghost use Rattle.im_parse_expression.specs.Declaring.{AfterDeclarator, AfterParameter, maybe_tree};
ghost use Rattle.im_parse_expression.specs.Declaring.{suffix_tree, suffixes_tree};

use super::ahead::{declarator_ahead, suffix_ahead};
use super::around::{around, unstarred};
use super::core_start::{CoreStart, core_at};
use super::expressions::conditional;
use super::form::Form;
use super::look::expect_mark;
use super::make;
use super::parameter::closed_parameters;
use super::stars::stars;
use im_ctree::{Declarator, Suffix};
use im_parse_core::{Stop, TypedefNames, after_mark};
use im_tok::Punctuator;
use im_word::Word;
use std::alloc::Global;

/// A declarator of this form where one begins at this place, and the place behind it.
#[cycle(expression)]
pub fn maybe_declarator(
    alloc: Global,
    words: &[Word],
    names: &TypedefNames,
    form: Form,
    at: u32,
) -> Result<(Option<Declarator>, u32), Stop>
    requires { length words.now < 2 ^ 32 }
    ensures { Parses maybe_tree (IsMaybeForm names.now form) AfterParameter
        (map shown words.now) at result }
{
    if !declarator_ahead(words, form, at) {
        return Ok((None, at));
    }
    let (tree, end) = declarator(alloc, words, names, form, at)?;
    Ok((Some(tree), end))
}

/// A declarator of this form (C11 6.7.6, 6.7.7), and the place behind it.
#[cycle(expression)]
pub fn declarator(
    alloc: Global,
    words: &[Word],
    names: &TypedefNames,
    form: Form,
    at: u32,
) -> Result<(Declarator, u32), Stop>
    requires { length words.now < 2 ^ 32 }
    ensures { Parses declarator_of (IsForm names.now form) AfterDeclarator
        (map shown words.now) at result }
{
    let (stars, next) = stars(alloc, words, at)?;
    match core_at(words, names, form, unstarred(&stars), next)? {
        CoreStart::Name(name, behind) => {
            let (suffixes, end) = suffixes(alloc, words, names, behind)?;
            let tree = make::named(alloc, at, stars, name, suffixes)?;
            Ok((tree, end))
        }
        CoreStart::Inner(inner, inside) => {
            let (core, close) = declarator(alloc, words, names, inner, inside)?;
            let behind = expect_mark(words, close, Punctuator::CloseParen)?;
            let (suffixes, end) = suffixes(alloc, words, names, behind)?;
            let tree = around(alloc, at, stars, core, suffixes)?;
            Ok((tree, end))
        }
        CoreStart::Nothing => {
            let (suffixes, end) = suffixes(alloc, words, names, next)?;
            Ok((make::nameless(at, stars, suffixes), end))
        }
    }
}

/// The suffixes of a declarator (C11 6.7.6.2, 6.7.6.3), and the place behind them.
#[cycle(expression)]
fn suffixes(
    alloc: Global,
    words: &[Word],
    names: &TypedefNames,
    at: u32,
) -> Result<(Vec<Suffix>, u32), Stop>
    requires { length words.now < 2 ^ 32 }
    ensures { Parses suffixes_tree (IsSuffixes names.now) (Below 14)
        (map shown words.now) at result }
{
    let mut items = Vec::new(alloc);
    let mut next = at;
    while suffix_ahead(words, next) {
        let (item, end) = suffix(alloc, words, names, next)?;
        items.push(item)?;
        next = end;
    }
    Ok((items, next))
}

/// One suffix of a declarator (C11 6.7.6.2, 6.7.6.3), and the place behind it.
#[cycle(expression)]
fn suffix(
    alloc: Global,
    words: &[Word],
    names: &TypedefNames,
    at: u32,
) -> Result<(Suffix, u32), Stop>
    requires { length words.now < 2 ^ 32 }
    ensures { Parses suffix_tree (IsSuffix names.now) Anything (map shown words.now) at result }
{
    let Some(inside) = after_mark(words, at, Punctuator::OpenBracket) else {
        let first = expect_mark(words, at, Punctuator::OpenParen)?;
        let (parameters, end) = closed_parameters(alloc, words, names, first)?;
        return Ok((make::function(at, parameters), end));
    };
    if let Some(end) = after_mark(words, inside, Punctuator::CloseBracket) {
        return Ok((make::array(at), end));
    }
    let (length, close) = conditional(alloc, words, names, inside)?;
    let end = expect_mark(words, close, Punctuator::CloseBracket)?;
    let tree = make::sized_array(alloc, at, length)?;
    Ok((tree, end))
}
