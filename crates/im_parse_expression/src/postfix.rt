ghost use Rattle.std.specs.Prelude.{◌≡◌, ◌<◌, ◌^◌, Some, length, map, drop};
ghost use Rattle.im_word.specs.Words.{mark};
ghost use Rattle.im_parse_core.specs.Reads.{head};
ghost use Rattle.im_tok.specs.declared.punctuator.Punctuator.TheVariants.{OpenParen, CloseParen};
ghost use Rattle.im_word.specs.Shown.{shown};
ghost use Rattle.im_ctree.specs.Grammar.{IsPostfix, IsPrimary, IsArguments};
ghost use Rattle.im_parse_expression.specs.Parsing.{Parses, Below, Anything, Closed, Postfixes};
ghost use Rattle.im_parse_expression.specs.Parsing.{tree_of, items_tree};

use super::build;
use super::expressions::{assignment, expression};
use super::look::{expect_mark, expect_name, step_at};
use super::text::joined_text;
use im_ctree::{Expression, ExpressionKind};
use im_parse_core::{Stop, TypedefNames, after_mark, word_at};
use im_tok::Punctuator;
use im_word::Word;
use std::alloc::Global;

/// A postfix expression (C11 6.5.2), and the place behind it.
#[cycle(expression)]
pub fn postfix(
    alloc: Global,
    words: &[Word],
    names: &TypedefNames,
    at: u32,
) -> Result<(Expression, u32), Stop>
    requires { length words.now < 2 ^ 32 }
    ensures { Parses tree_of (IsPostfix names.now) (Below 14) (map shown words.now) at result }
{
    let (tree, next) = primary(alloc, words, names, at)?;
    postfix_from(alloc, words, names, at, tree, next)
}

/// What goes on with a postfix expression that begins at place `at` and so far ends before
/// `behind_first`.
#[cycle(expression)]
fn postfix_from(
    alloc: Global,
    words: &[Word],
    names: &TypedefNames,
    at: u32,
    first: Expression,
    behind_first: u32,
) -> Result<(Expression, u32), Stop>
    requires { length words.now < 2 ^ 32 }
    ensures { Parses tree_of (Postfixes names.now at (tree_of first)) (Below 14)
        (map shown words.now) behind_first result }
{
    let mut tree = first;
    let mut next = behind_first;
    loop {
        if let Some(behind) = after_mark(words, next, Punctuator::OpenBracket) {
            let (index, close) = expression(alloc, words, names, behind)?;
            next = expect_mark(words, close, Punctuator::CloseBracket)?;
            tree = build::index(alloc, at, tree, index)?;
            continue;
        }
        if let Some(behind) = after_mark(words, next, Punctuator::OpenParen) {
            let (arguments, end) = closed_arguments(alloc, words, names, behind)?;
            tree = build::call(alloc, at, tree, arguments)?;
            next = end;
            continue;
        }
        if let Some(behind) = after_mark(words, next, Punctuator::Dot) {
            let (name, end) = expect_name(words, behind)?;
            tree = build::member(alloc, at, tree, name)?;
            next = end;
            continue;
        }
        if let Some(behind) = after_mark(words, next, Punctuator::Arrow) {
            let (name, end) = expect_name(words, behind)?;
            tree = build::arrow(alloc, at, tree, name)?;
            next = end;
            continue;
        }
        let Some((operator, end)) = step_at(words, next) else {
            return Ok((tree, next));
        };
        tree = build::post_step(alloc, at, operator, tree)?;
        next = end;
    }
}

/// The arguments of a call and the parenthesis that closes them (C11 6.5.2.2), and the place behind
/// all.
#[cycle(expression)]
#[inline(never)]
fn closed_arguments(
    alloc: Global,
    words: &[Word],
    names: &TypedefNames,
    at: u32,
) -> Result<(Vec<Expression>, u32), Stop>
    requires { length words.now < 2 ^ 32 }
    ensures { Parses items_tree (Closed CloseParen (IsArguments names.now)) Anything
        (map shown words.now) at result }
{
    let mut items = Vec::new(alloc);
    if let Some(end) = after_mark(words, at, Punctuator::CloseParen) {
        return Ok((items, end));
    }
    let (first, mut next) = assignment(alloc, words, names, at)?;
    items.push(first)?;
    while let Some(behind) = after_mark(words, next, Punctuator::Comma) {
        let (item, end) = assignment(alloc, words, names, behind)?;
        items.push(item)?;
        next = end;
    }
    let end = expect_mark(words, next, Punctuator::CloseParen)?;
    Ok((items, end))
}

/// A primary expression (C11 6.5.1), and the place behind it.
#[cycle(expression)]
#[inline(never)]
fn primary(
    alloc: Global,
    words: &[Word],
    names: &TypedefNames,
    at: u32,
) -> Result<(Expression, u32), Stop>
    requires { length words.now < 2 ^ 32 }
    ensures { Parses tree_of (IsPrimary names.now) (Below 19) (map shown words.now) at result }
{
    if let Some(inside) = after_mark(words, at, Punctuator::OpenParen) {
        let (tree, close) = expression(alloc, words, names, inside)?;
        let end = expect_mark(words, close, Punctuator::CloseParen)?;
        return Ok((tree, end));
    }
    single(alloc, words, names, at)
}

/// A primary expression without parentheses (C11 6.5.1), and the place behind it.
#[inline(never)]
fn single(
    alloc: Global,
    words: &[Word],
    names: &TypedefNames,
    at: u32,
) -> Result<(Expression, u32), Stop>
    requires short { length words.now < 2 ^ 32 }
    requires other { head (drop at (map shown words.now)) ≡ Some (mark OpenParen) → ⊥ }
    ensures { Parses tree_of (IsPrimary names.now) (Below 19) (map shown words.now) at result }
{
    let Some(found) = word_at(words, at) else {
        return Err(Stop::Syntax(at));
    };
    let next = found.1;
    match found.0 {
        Word::Name(name) => {
            if names.contains(name) {
                return Err(Stop::Syntax(at));
            }
            let kind = ExpressionKind::Identifier(Vec::from_slice(alloc, name)?);
            Ok((Expression { at, kind }, next))
        }
        Word::Number(number) => {
            let kind = ExpressionKind::Number(*number);
            Ok((Expression { at, kind }, next))
        }
        Word::Character(value) => {
            let kind = ExpressionKind::Character(*value);
            Ok((Expression { at, kind }, next))
        }
        Word::Text(_) => {
            let (bytes, end) = joined_text(alloc, words, at)?;
            let kind = ExpressionKind::Text(bytes);
            Ok((Expression { at, kind }, end))
        }
        Word::Keyword(_) => Err(Stop::Syntax(at)),
        Word::Mark(_) => Err(Stop::Syntax(at)),
        Word::Unknown => Err(Stop::Syntax(at)),
    }
}
