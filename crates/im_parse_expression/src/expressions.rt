ghost use Rattle.std.specs.Prelude.{◌≡◌, ◌<◌, ◌≤◌, ◌+◌, ◌^◌, ◌↔◌, IsTrue, MatchOption, MatchResult};
ghost use Rattle.std.specs.Prelude.{false, length, map};
ghost use Rattle.im_word.specs.Shown.{shown};
ghost use Rattle.im_ctree.specs.Grammar.{IsExpression, IsAssignment, IsConditional, IsBinary};
ghost use Rattle.im_ctree.specs.Grammar.{IsCast, IsUnary};
ghost use Rattle.im_parse_expression.specs.Parsing.{Parses, Below, IsSized, tree_of, number_of};
ghost use Rattle.im_parse_expression.specs.Parsing.{is_looser};
ghost use Rattle.im_parse_expression.specs.Casts.{CastBegins, NoCastBegins, StandCasts};
ghost use Rattle.im_parse_core.specs.Parts.{Made};
ghost use Rattle.im_parse_core.specs.Places.{StopsAt};
ghost use Rattle.im_ctree.specs.Tree.{size_of_expression};

use super::build;
use super::casts::CastType;
use super::look::{assign_at, begins_specifiers, binary_at, expect_mark, prefix_at, step_at};
use super::postfix::postfix;
use super::type_name::closed_type_name;
use im_ctree::{Expression, ExpressionKind};
use im_parse_core::{Stop, TypedefNames, after_keyword, after_mark};
use im_tok::{Keyword, Punctuator};
use im_word::Word;
use std::alloc::Global;

/// An expression (C11 6.5.17), and the place behind it.
#[cycle(expression)]
pub fn expression(
    alloc: Global,
    words: &[Word],
    names: &TypedefNames,
    at: u32,
) -> Result<(Expression, u32), Stop>
    requires { length words.now < 2 ^ 32 }
    ensures { Parses tree_of (IsExpression names.now) (Below 1) (map shown words.now) at result }
{
    let (mut tree, mut next) = assignment(alloc, words, names, at)?;
    while let Some(behind) = after_mark(words, next, Punctuator::Comma) {
        let (right, end) = assignment(alloc, words, names, behind)?;
        tree = build::comma(alloc, at, tree, right)?;
        next = end;
    }
    Ok((tree, next))
}

/// Whether a conditional expression that begins at this place is a unary one: it is, unless its
/// node is looser and not in parentheses of its own.
fn is_unary(tree: &Expression, at: u32) -> bool
    ensures { IsTrue result ↔
        (number_of (tree_of tree.now) ≡ at → is_looser (tree_of tree.now) ≡ false) }
{
    tree.at != at
        || !matches!(
            tree.kind,
            ExpressionKind::Cast(_, _)
                | ExpressionKind::Binary(_, _, _)
                | ExpressionKind::Conditional(_, _, _)
        )
}

/// An assignment expression (C11 6.5.16), and the place behind it.
#[cycle(expression)]
pub fn assignment(
    alloc: Global,
    words: &[Word],
    names: &TypedefNames,
    at: u32,
) -> Result<(Expression, u32), Stop>
    requires { length words.now < 2 ^ 32 }
    ensures { Parses tree_of (IsAssignment names.now) (Below 2) (map shown words.now) at result }
{
    let (left, next) = conditional(alloc, words, names, at)?;
    match assign_at(words, next) {
        None => Ok((left, next)),
        Some((operator, behind)) => {
            if !is_unary(&left, at) {
                return Err(Stop::Syntax(next));
            }
            let (right, end) = assignment(alloc, words, names, behind)?;
            let tree = build::assign(alloc, at, operator, left, right)?;
            Ok((tree, end))
        }
    }
}

/// A conditional expression (C11 6.5.15), and the place behind it.
#[cycle(expression)]
pub fn conditional(
    alloc: Global,
    words: &[Word],
    names: &TypedefNames,
    at: u32,
) -> Result<(Expression, u32), Stop>
    requires { length words.now < 2 ^ 32 }
    ensures { Parses tree_of (IsConditional names.now) (Below 3) (map shown words.now) at result }
{
    let (condition, next) = binary(alloc, words, names, 0, at)?;
    match after_mark(words, next, Punctuator::Question) {
        None => Ok((condition, next)),
        Some(behind) => {
            let (chosen, colon) = expression(alloc, words, names, behind)?;
            let last = expect_mark(words, colon, Punctuator::Colon)?;
            let (other, end) = conditional(alloc, words, names, last)?;
            let tree = build::conditional(alloc, at, condition, chosen, other)?;
            Ok((tree, end))
        }
    }
}

/// A binary expression of this level, of which 0 binds loosest (C11 6.5.5 to 6.5.14), and the place
/// behind it.
#[cycle(expression)]
fn binary(
    alloc: Global,
    words: &[Word],
    names: &TypedefNames,
    level: u32,
    at: u32,
) -> Result<(Expression, u32), Stop>
    requires short { length words.now < 2 ^ 32 }
    requires level { level ≤ 10 }
    ensures { Parses tree_of (IsBinary names.now level) (Below (level + 4))
        (map shown words.now) at result }
{
    let (mut tree, mut next) = cast(alloc, words, names, at)?;
    let mut tightest = 10;
    while tightest > level {
        tightest -= 1;
        while let Some((operator, behind)) = binary_at(words, next, tightest) {
            let (right, end) = binary(alloc, words, names, tightest + 1, behind)?;
            tree = build::binary(alloc, at, operator, tree, right)?;
            next = end;
        }
    }
    Ok((tree, next))
}

/// The place inside the parentheses of a cast, if one begins at this place (C11 6.5.4).
fn cast_at(words: &[Word], names: &TypedefNames, at: u32) -> Option<u32>
    requires { length words.now < 2 ^ 32 }
    ensures { MatchOption result (NoCastBegins names.now (map shown words.now) at)
        (CastBegins names.now (map shown words.now) at) }
{
    let inside = after_mark(words, at, Punctuator::OpenParen)?;
    if begins_specifiers(words, names, inside) {
        Some(inside)
    } else {
        None
    }
}

/// The types of the casts that begin at this place, one behind the other, and the place behind
/// them.
#[cycle(expression)]
fn cast_types(
    alloc: Global,
    words: &[Word],
    names: &TypedefNames,
    at: u32,
) -> Result<(Vec<CastType>, u32), Stop>
    requires { length words.now < 2 ^ 32 }
    ensures { MatchResult result
        (λ read. StandCasts names.now (map shown words.now) at read.0.items read.1)
        (StopsAt (IsCast names.now) (Below 14) (map shown words.now) at) }
{
    let mut types = Vec::new(alloc);
    let mut next = at;
    while let Some(inside) = cast_at(words, names, next) {
        let (name, behind) = closed_type_name(alloc, words, names, inside)?;
        types.push(CastType { at: next, name })?;
        next = behind;
    }
    Ok((types, next))
}

/// A cast expression (C11 6.5.4), and the place behind it.
#[cycle(expression)]
fn cast(
    alloc: Global,
    words: &[Word],
    names: &TypedefNames,
    at: u32,
) -> Result<(Expression, u32), Stop>
    requires { length words.now < 2 ^ 32 }
    ensures { Parses tree_of (IsCast names.now) (Below 14) (map shown words.now) at result }
{
    let (types, next) = cast_types(alloc, words, names, at)?;
    let (operand, end) = unary(alloc, words, names, next)?;
    let tree = build::casts(alloc, types, operand)?;
    Ok((tree, end))
}

/// A unary expression (C11 6.5.3), and the place behind it.
#[cycle(expression)]
fn unary(
    alloc: Global,
    words: &[Word],
    names: &TypedefNames,
    at: u32,
) -> Result<(Expression, u32), Stop>
    requires { length words.now < 2 ^ 32 }
    ensures { Parses tree_of (IsUnary names.now) (Below 14) (map shown words.now) at result }
{
    if let Some((operator, behind)) = step_at(words, at) {
        let (operand, end) = unary(alloc, words, names, behind)?;
        let tree = build::pre_step(alloc, at, operator, operand)?;
        return Ok((tree, end));
    }
    if let Some((operator, behind)) = prefix_at(words, at) {
        let (operand, end) = cast(alloc, words, names, behind)?;
        let tree = build::unary(alloc, at, operator, operand)?;
        return Ok((tree, end));
    }
    match after_keyword(words, at, Keyword::Sizeof) {
        None => postfix(alloc, words, names, at),
        Some(behind) => sized(alloc, words, names, at, behind),
    }
}

/// The rest of a `sizeof` at place `at`, from the place behind the word on (C11 6.5.3).
#[cycle(expression)]
fn sized(
    alloc: Global,
    words: &[Word],
    names: &TypedefNames,
    at: u32,
    behind: u32,
) -> Result<(Expression, u32), Stop>
    requires { length words.now < 2 ^ 32 }
    ensures { Parses tree_of (IsSized names.now at) (Below 14) (map shown words.now) behind result }
{
    match after_mark(words, behind, Punctuator::OpenParen) {
        None => sized_operand(alloc, words, names, at, behind),
        Some(inside) => {
            if !begins_specifiers(words, names, inside) {
                return sized_operand(alloc, words, names, at, behind);
            }
            let (name, end) = closed_type_name(alloc, words, names, inside)?;
            let tree = build::size_of_type(alloc, at, name)?;
            Ok((tree, end))
        }
    }
}

/// The operand of a `sizeof` at place `at` that is an expression, from place `behind` on.
#[cycle(expression)]
fn sized_operand(
    alloc: Global,
    words: &[Word],
    names: &TypedefNames,
    at: u32,
    behind: u32,
) -> Result<(Expression, u32), Stop>
    requires { length words.now < 2 ^ 32 }
    ensures { Parses tree_of (Made (size_of_expression at) (IsUnary names.now))
        (Below 14) (map shown words.now) behind result }
{
    let (operand, end) = unary(alloc, words, names, behind)?;
    let tree = build::size_of_expression(alloc, at, operand)?;
    Ok((tree, end))
}
