//! The terms of expressions.
ghost use Rattle.std.specs.Prelude.{MatchResult, ◌≡◌, None};
ghost use Rattle.im_check_expression_parts.specs.im_rules.Breaks.{some_expressions};
ghost use Rattle.im_check_expression_parts.specs.im_rules.Strings.{strings_among};
ghost use Rattle.im_check_expression_parts.specs.im_rules.Typed.{AreTyped};
ghost use Rattle.im_check_expression_parts.specs.im_rules_limits.Limits.{IsWithin};
ghost use Rattle.im_ctree_parts.specs.Lists.{expression_in, expressions_from};
ghost use Rattle.im_check_scopes.specs.Shape.{scopes_of};
ghost use Rattle.im_check_declarators.specs.Suffixes.{IsFault};
ghost use Rattle.im_check_place.specs.Contexts.{context_of, behind_strings};
ghost use Rattle.im_check_expression_parts.specs.Walked.{IsTyped, terms_in};
ghost use Rattle.im_check_expressions.specs.Links.{first_of};

use crate::leaves::text;
use crate::links::{Link, first_operand, linked, named_type};
use crate::operands::{call, operation, unary};
use im_check_name_forms::{character_term, name_term, number_term};
use im_check_operands::Term;
use im_check_place::Place;
use im_check_stop::Stop;
use im_ctree::{Expression, ExpressionKind};
use std::alloc::Global;

/// The term of an expression (C11 6.5). A loop goes down first operands and one goes up again, so
/// that chains of them take no stack.
#[cycle(walk)]
pub fn expression(alloc: Global, e: &Expression, place: &mut Place) -> Result<Term, Stop>
    ensures { IsTyped place.old (expression_in e.now) place.new result }
{
    let mut links = Vec::new(alloc);
    let mut rest = e;
    while let Some(first) = first_operand(&place.scope, rest) {
        let named = named_type(alloc, rest, place)?;
        links.push(Link { whole: rest, named })?;
        rest = first;
    }
    let mut x = ending(alloc, rest, place)?;
    while let Some(Link { whole, named }) = links.pop() {
        x = linked(alloc, whole, named, x, place)?;
    }
    Ok(x)
}

/// The term of an expression with which a chain ends.
#[cycle(walk)]
#[inline(never)]
fn ending(alloc: Global, e: &Expression, place: &mut Place) -> Result<Term, Stop>
    requires { first_of (scopes_of place.old.scope) (expression_in e.now) ≡ None }
    ensures { IsTyped place.old (expression_in e.now) place.new result }
{
    match &e.kind {
        ExpressionKind::Identifier(name) => {
            name_term(alloc, &place.scope, &place.outline, e.at, name)
        }
        ExpressionKind::Number(number) => Ok(number_term(*number)),
        ExpressionKind::Character(value) => Ok(character_term(*value)),
        ExpressionKind::Text(bytes) => text(alloc, bytes, place),
        ExpressionKind::Call(_, _) => call(alloc, e, place),
        ExpressionKind::PreStep(_, _)
        | ExpressionKind::Unary(_, _)
        | ExpressionKind::SizeOfExpression(_)
        | ExpressionKind::SizeOfType(_) => unary(alloc, e, place),
        ExpressionKind::Binary(_, _, _)
        | ExpressionKind::Conditional(_, _, _)
        | ExpressionKind::Assign(_, _, _) => operation(alloc, e, place),
        ExpressionKind::Index(_, _)
        | ExpressionKind::Member(_, _)
        | ExpressionKind::Arrow(_, _)
        | ExpressionKind::PostStep(_, _)
        | ExpressionKind::Cast(_, _)
        | ExpressionKind::Comma(_, _) => unreachable!(),
    }
}

/// The terms of arguments, in order.
#[cycle(walk)]
pub(crate) fn terms(
    alloc: Global,
    arguments: &[Expression],
    place: &mut Place,
) -> Result<Vec<Term>, Stop>
    ensures { let es = expressions_from arguments.now in MatchResult result
        (λ xs. AreTyped (context_of place.old) es (terms_in place.old.structs xs.items)
        × (place.new ≡ behind_strings (strings_among es) place.old)
        × IsWithin (context_of place.old) (some_expressions es))
        (IsFault (context_of place.old) (some_expressions es)) }
{
    let mut done = Vec::new(alloc);
    for argument in arguments {
        let x = expression(alloc, argument, place)?;
        done.push(x)?;
    }
    Ok(done)
}
