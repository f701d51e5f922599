//! Expressions and type names. Each function is given the number of the next string literal before
//! the part, and gives that behind it; want of memory where it is 2^32 or more.
ghost use Rattle.std.specs.Prelude.{◌≡◌, ◌+◌, ◌++◌, length, IfOk};
ghost use Rattle.im_ctree.specs.Shape.{type_name_of};
ghost use Rattle.im_rules.specs.Strings.{strings_in, strings_among, strings_maybe, strings_named};
ghost use Rattle.im_ctree_parts.specs.Lists.{expression_in, expressions_from, maybe_from};
ghost use Rattle.im_check_string_numbers.specs.Chains.{before_first, behind_first};

use crate::chain::first_operand;
use crate::declarator::behind_declarator_if_any;
use crate::specifier::behind_specifiers;
use crate::step::behind_one;
use im_ctree::{Expression, ExpressionKind, TypeName};
use im_num::NoMemory;

/// The number of the next string literal behind an expression (C11 6.5). A loop goes down first
/// operands and what is cast, so that chains of them take no stack; how many literals stand in an
/// expression doesn't depend on the order in which its parts are counted.
#[cycle(strings)]
pub fn behind_expression(next: u32, e: &Expression) -> Result<u32, NoMemory>
    ensures { IfOk result (λ n. n ≡ next + length (strings_in (expression_in e.now))) }
{
    let mut done = next;
    let mut rest = e;
    while let Some(first) = first_operand(rest) {
        done = behind_others(done, rest)?;
        rest = first;
    }
    behind_form(done, rest)
}

/// The number behind what stands beside the operand with which a chain goes on.
#[cycle(strings)]
fn behind_others(next: u32, e: &Expression) -> Result<u32, NoMemory>
    ensures { IfOk result (λ n. n ≡ next
        + length (before_first (expression_in e.now) ++ behind_first (expression_in e.now))) }
{
    match &e.kind {
        ExpressionKind::Cast(name, _) => behind_type_name(next, name),
        ExpressionKind::Call(_, arguments) => behind_expressions(next, arguments),
        ExpressionKind::Index(_, right) | ExpressionKind::Comma(_, right) => {
            behind_expression(next, right)
        }
        _ => Ok(next),
    }
}

/// The number behind an expression whose operands are counted each for itself.
#[cycle(strings)]
fn behind_form(next: u32, e: &Expression) -> Result<u32, NoMemory>
    ensures { IfOk result (λ n. n ≡ next + length (strings_in (expression_in e.now))) }
{
    match &e.kind {
        ExpressionKind::Identifier(_) | ExpressionKind::Number(_) | ExpressionKind::Character(_) =>
            Ok(next),
        ExpressionKind::Text(_) => behind_one(next),
        ExpressionKind::Member(operand, _)
        | ExpressionKind::Arrow(operand, _)
        | ExpressionKind::PostStep(_, operand)
        | ExpressionKind::PreStep(_, operand)
        | ExpressionKind::Unary(_, operand)
        | ExpressionKind::SizeOfExpression(operand) => behind_expression(next, operand),
        ExpressionKind::SizeOfType(name) => behind_type_name(next, name),
        ExpressionKind::Cast(name, operand) => {
            let inner = behind_type_name(next, name)?;
            behind_expression(inner, operand)
        }
        ExpressionKind::Call(callee, arguments) => {
            let inner = behind_expression(next, callee)?;
            behind_expressions(inner, arguments)
        }
        ExpressionKind::Index(left, right)
        | ExpressionKind::Binary(_, left, right)
        | ExpressionKind::Assign(_, left, right)
        | ExpressionKind::Comma(left, right) => {
            let inner = behind_expression(next, left)?;
            behind_expression(inner, right)
        }
        ExpressionKind::Conditional(test, first, second) => {
            let tested = behind_expression(next, test)?;
            let inner = behind_expression(tested, first)?;
            behind_expression(inner, second)
        }
    }
}

/// The number behind expressions in their order.
#[cycle(strings)]
pub fn behind_expressions(next: u32, expressions: &[Expression]) -> Result<u32, NoMemory>
    ensures { IfOk result
        (λ n. n ≡ next + length (strings_among (expressions_from expressions.now))) }
{
    let mut done = next;
    for e in expressions {
        done = behind_expression(done, e)?;
    }
    Ok(done)
}

#[cycle(strings)]
pub fn behind_expression_if_any(next: u32, e: &Option<Box<Expression>>) -> Result<u32, NoMemory>
    ensures { IfOk result (λ n. n ≡ next + length (strings_maybe (maybe_from e.now))) }
{
    match e {
        Some(expression) => behind_expression(next, expression),
        None => Ok(next),
    }
}

/// The number behind a type name (C11 6.7.7).
#[cycle(strings)]
pub fn behind_type_name(next: u32, name: &TypeName) -> Result<u32, NoMemory>
    ensures { IfOk result (λ n. n ≡ next + length (strings_named (type_name_of name.now))) }
{
    let inner = behind_specifiers(next, &name.specifiers)?;
    behind_declarator_if_any(inner, &name.declarator)
}
