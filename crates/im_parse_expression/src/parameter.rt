ghost use Rattle.std.specs.Prelude.{◌<◌, ◌^◌, length, map};
ghost use Rattle.im_tok.specs.declared.punctuator.Punctuator.TheVariants.{CloseParen};
ghost use Rattle.im_word.specs.Shown.{shown};
ghost use Rattle.im_ctree.specs.Grammar.{IsParameters};
ghost use Rattle.im_parse_expression.specs.Parsing.{Parses, Anything, Closed};
ghost use Rattle.im_parse_expression.specs.Declaring as d;

use super::declarators::maybe_declarator;
use super::form::Form;
use super::look::expect_mark;
use super::make;
use super::specifier::specifiers;
use im_ctree::Parameter;
use im_parse_core::{Stop, TypedefNames, after_mark};
use im_tok::Punctuator;
use im_word::Word;
use std::alloc::Global;

/// The parameters of a function and the parenthesis that closes them (C11 6.7.6.3), and the place
/// behind all.
#[cycle(expression)]
pub fn closed_parameters(
    alloc: Global,
    words: &[Word],
    names: &TypedefNames,
    at: u32,
) -> Result<(Vec<Parameter>, u32), Stop>
    requires { length words.now < 2 ^ 32 }
    ensures { Parses d.parameters_tree (Closed CloseParen (IsParameters names.now))
        Anything (map shown words.now) at result }
{
    let mut items = Vec::new(alloc);
    if let Some(end) = after_mark(words, at, Punctuator::CloseParen) {
        return Ok((items, end));
    }
    let (first, mut next) = parameter(alloc, words, names, at)?;
    items.push(first)?;
    while let Some(behind) = after_mark(words, next, Punctuator::Comma) {
        let (item, end) = parameter(alloc, words, names, behind)?;
        items.push(item)?;
        next = end;
    }
    let end = expect_mark(words, next, Punctuator::CloseParen)?;
    Ok((items, end))
}

/// A parameter (C11 6.7.6), and the place behind it.
#[cycle(expression)]
fn parameter(
    alloc: Global,
    words: &[Word],
    names: &TypedefNames,
    at: u32,
) -> Result<(Parameter, u32), Stop>
    requires { length words.now < 2 ^ 32 }
    ensures { Parses d.parameter_tree (d.Parameter names.now) d.AfterParameter
        (map shown words.now) at result }
{
    let (specifiers, next) = specifiers(alloc, words, names, at)?;
    let (declarator, end) = maybe_declarator(alloc, words, names, Form::Either, next)?;
    let tree = make::parameter(alloc, specifiers, declarator)?;
    Ok((tree, end))
}
