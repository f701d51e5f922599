ghost use Rattle.std.specs.Prelude.{◌<◌, ◌^◌, length, map};
ghost use Rattle.im_tok.specs.declared.punctuator.Punctuator.TheVariants.{CloseParen, Semicolon};
ghost use Rattle.im_word.specs.Shown.{shown};
ghost use Rattle.im_ctree.specs.Shape.{optional_expression_of};
ghost use Rattle.im_ctree.specs.Units.{IsMaybeExpression};
ghost use Rattle.im_parse_expression.specs.Parsing.{Parses, Anything, Closed, tree_of};
ghost use Rattle.im_parse_statement.specs.Statements.{Condition};

use im_ctree::Expression;
use im_parse_core::{Stop, TypedefNames, after_mark};
use im_parse_expression::{expect_mark, expression};
use im_tok::Punctuator;
use im_word::Word;
use std::alloc::Global;

/// The expression in parentheses at this place (C11 6.8.4, 6.8.5), and the place behind it.
pub fn condition(
    alloc: Global,
    words: &[Word],
    names: &TypedefNames,
    at: u32,
) -> Result<(Expression, u32), Stop>
    requires { length words.now < 2 ^ 32 }
    ensures { Parses tree_of (Condition names.now) Anything (map shown words.now) at result }
{
    let inside = expect_mark(words, at, Punctuator::OpenParen)?;
    let (tree, next) = expression(alloc, words, names, inside)?;
    let end = expect_mark(words, next, Punctuator::CloseParen)?;
    Ok((tree, end))
}

/// The expression at this place, where one stands there, and the semicolon behind it (C11 6.8.3);
/// the place behind both.
pub fn before_semicolon(
    alloc: Global,
    words: &[Word],
    names: &TypedefNames,
    at: u32,
) -> Result<(Option<Expression>, u32), Stop>
    requires { length words.now < 2 ^ 32 }
    ensures { Parses optional_expression_of (Closed Semicolon (IsMaybeExpression names.now))
        Anything (map shown words.now) at result }
{
    if let Some(end) = after_mark(words, at, Punctuator::Semicolon) {
        return Ok((None, end));
    }
    let (tree, next) = expression(alloc, words, names, at)?;
    let end = expect_mark(words, next, Punctuator::Semicolon)?;
    Ok((Some(tree), end))
}

/// The expression at this place, where one stands there, and the parenthesis that closes it; the
/// place behind both.
pub fn before_paren(
    alloc: Global,
    words: &[Word],
    names: &TypedefNames,
    at: u32,
) -> Result<(Option<Expression>, u32), Stop>
    requires { length words.now < 2 ^ 32 }
    ensures { Parses optional_expression_of (Closed CloseParen (IsMaybeExpression names.now))
        Anything (map shown words.now) at result }
{
    if let Some(end) = after_mark(words, at, Punctuator::CloseParen) {
        return Ok((None, end));
    }
    let (tree, next) = expression(alloc, words, names, at)?;
    let end = expect_mark(words, next, Punctuator::CloseParen)?;
    Ok((Some(tree), end))
}
