//! Expressions and type names. Each function puts the bytes of the string literals of a part behind
//! those of the texts, in source order.
ghost use Rattle.std.specs.Prelude.{◌≡◌, ◌++◌, OnOk};
ghost use Rattle.im_ctree.specs.Shape.{type_name_of};
ghost use Rattle.im_check_texts.specs.im_rules.Strings.{strings_in, strings_among, strings_maybe};
ghost use Rattle.im_check_texts.specs.im_rules.Strings.{strings_named};
ghost use Rattle.im_ctree_parts.specs.Lists.{expression_in, expressions_from, maybe_from};
ghost use Rattle.im_check_string_numbers.specs.Chains.{before_first, behind_first};
ghost use Rattle.im_check_texts.specs.Texts.{texts_in};

use crate::declarator::append_declarator_if_any;
use crate::specifier::append_specifiers;
use crate::step::append_one;
use im_check_string_numbers::first_operand;
use im_ctree::{Expression, ExpressionKind, TypeName};
use im_num::NoMemory;
use std::alloc::Global;

/// Appends the string literals of an expression (C11 6.5). A loop goes down what is indexed, called
/// or cast and what stands in front of a comma, and one goes up again, so that chains of them take
/// no stack.
#[cycle(texts)]
pub fn append_expression(
    alloc: Global,
    e: &Expression,
    texts: &mut Vec<Vec<u8>>,
) -> Result<(), NoMemory>
    ensures { OnOk result (texts_in texts.new.items ≡ texts_in texts.old.items
        ++ strings_in (expression_in e.now)) }
{
    let mut links = Vec::new(alloc);
    let mut rest = e;
    while let Some(first) = first_operand(rest) {
        append_before_first(alloc, rest, texts)?;
        links.push(rest)?;
        rest = first;
    }
    append_form(alloc, rest, texts)?;
    while let Some(link) = links.pop() {
        append_behind_first(alloc, link, texts)?;
    }
    Ok(())
}

/// Appends what stands before the operand with which a chain goes on.
#[cycle(texts)]
fn append_before_first(
    alloc: Global,
    e: &Expression,
    texts: &mut Vec<Vec<u8>>,
) -> Result<(), NoMemory>
    ensures { OnOk result (texts_in texts.new.items ≡ texts_in texts.old.items
        ++ before_first (expression_in e.now)) }
{
    match &e.kind {
        ExpressionKind::Cast(name, _) => append_type_name(alloc, name, texts),
        _ => Ok(()),
    }
}

/// Appends what stands behind the operand with which a chain goes on.
#[cycle(texts)]
fn append_behind_first(
    alloc: Global,
    e: &Expression,
    texts: &mut Vec<Vec<u8>>,
) -> Result<(), NoMemory>
    ensures { OnOk result (texts_in texts.new.items ≡ texts_in texts.old.items
        ++ behind_first (expression_in e.now)) }
{
    match &e.kind {
        ExpressionKind::Index(_, right) | ExpressionKind::Comma(_, right) => {
            append_expression(alloc, right, texts)
        }
        ExpressionKind::Call(_, arguments) => append_expressions(alloc, arguments, texts),
        _ => Ok(()),
    }
}

/// Appends those of an expression whose operands are gone through each for itself.
#[cycle(texts)]
fn append_form(alloc: Global, e: &Expression, texts: &mut Vec<Vec<u8>>) -> Result<(), NoMemory>
    ensures { OnOk result (texts_in texts.new.items ≡ texts_in texts.old.items
        ++ strings_in (expression_in e.now)) }
{
    match &e.kind {
        ExpressionKind::Identifier(_) | ExpressionKind::Number(_) | ExpressionKind::Character(_) =>
            Ok(()),
        ExpressionKind::Text(bytes) => append_one(alloc, bytes, texts),
        ExpressionKind::Member(operand, _)
        | ExpressionKind::Arrow(operand, _)
        | ExpressionKind::PostStep(_, operand)
        | ExpressionKind::PreStep(_, operand)
        | ExpressionKind::Unary(_, operand)
        | ExpressionKind::SizeOfExpression(operand) => append_expression(alloc, operand, texts),
        ExpressionKind::SizeOfType(name) => append_type_name(alloc, name, texts),
        ExpressionKind::Cast(name, operand) => {
            append_type_name(alloc, name, texts)?;
            append_expression(alloc, operand, texts)
        }
        ExpressionKind::Call(callee, arguments) => {
            append_expression(alloc, callee, texts)?;
            append_expressions(alloc, arguments, texts)
        }
        ExpressionKind::Index(left, right)
        | ExpressionKind::Binary(_, left, right)
        | ExpressionKind::Assign(_, left, right)
        | ExpressionKind::Comma(left, right) => {
            append_expression(alloc, left, texts)?;
            append_expression(alloc, right, texts)
        }
        ExpressionKind::Conditional(test, first, second) => {
            append_expression(alloc, test, texts)?;
            append_expression(alloc, first, texts)?;
            append_expression(alloc, second, texts)
        }
    }
}

/// Appends those of expressions in their order.
#[cycle(texts)]
pub fn append_expressions(
    alloc: Global,
    expressions: &[Expression],
    texts: &mut Vec<Vec<u8>>,
) -> Result<(), NoMemory>
    ensures { OnOk result (texts_in texts.new.items ≡ texts_in texts.old.items
        ++ strings_among (expressions_from expressions.now)) }
{
    for e in expressions {
        append_expression(alloc, e, texts)?;
    }
    Ok(())
}

#[cycle(texts)]
pub fn append_expression_if_any(
    alloc: Global,
    e: &Option<Box<Expression>>,
    texts: &mut Vec<Vec<u8>>,
) -> Result<(), NoMemory>
    ensures { OnOk result (texts_in texts.new.items ≡ texts_in texts.old.items
        ++ strings_maybe (maybe_from e.now)) }
{
    match e {
        Some(expression) => append_expression(alloc, expression, texts),
        None => Ok(()),
    }
}

/// Appends those of a type name (C11 6.7.7).
#[cycle(texts)]
pub fn append_type_name(
    alloc: Global,
    name: &TypeName,
    texts: &mut Vec<Vec<u8>>,
) -> Result<(), NoMemory>
    ensures { OnOk result (texts_in texts.new.items ≡ texts_in texts.old.items
        ++ strings_named (type_name_of name.now)) }
{
    append_specifiers(alloc, &name.specifiers, texts)?;
    append_declarator_if_any(alloc, &name.declarator, texts)
}
