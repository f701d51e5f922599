ghost use Rattle.std.specs.Prelude.{◌≡◌, ◌+◌, false, [], ◌∷◌, ◌++◌, OnOk};
ghost use Rattle.im_tok.specs.declared.punctuator.Punctuator.TheVariants as punctuator;
ghost use Rattle.im_word.specs.Words.{name, keyword, mark};
ghost use Rattle.im_print_relation.specs.Printed as printed;
ghost use Rattle.im_ctree.specs.Shape.{type_name_of};
ghost use Rattle.im_ctree.specs.Tree as t;
ghost use Rattle.im_print_parts.specs.Output.{Writes, known};
ghost use Rattle.im_print_parts.specs.Parts as parts;
ghost use Rattle.im_ctree_parts.specs.Lists.{expression_in, expressions_from};

use crate::chains::{first_operand, put_parenthesis};
use crate::commas::put_comma_if;
use crate::declarators::put_type_name;
use crate::{
    assign_mark, binding, operator_level, operator_mark, prefix_mark, put_character, put_keyword,
    put_mark, put_name, put_number, put_text, step_mark,
};
use im_ctree::{BinaryOp, Expression, ExpressionKind, TypeName};
use im_num::NoMemory;
use im_tok::{Keyword, Punctuator};

/// Writes an expression where one stands that binds as tightly as `level` says.
#[cycle(printing)]
pub fn put_at(out: &mut Vec<u8>, names: &[&[u8]], level: u8, e: &Expression) -> Result<(), NoMemory>
    ensures { OnOk result (Writes out.old.items out.new.items (printed.at_binding level
        (expression_in e.now) (printed.expression (known names.now) (expression_in e.now)))) }
{
    if binding(e) < level {
        put_mark(out, Punctuator::OpenParen)?;
        put_expression(out, names, e)?;
        put_mark(out, Punctuator::CloseParen)?;
        return Ok(());
    }
    put_expression(out, names, e)?;
    Ok(())
}

/// Writes an expression, a punctuator and a name behind it (C11 6.5.2.3).
#[cycle(printing)]
fn put_member(
    out: &mut Vec<u8>,
    names: &[&[u8]],
    whole: &Expression,
    punctuator: Punctuator,
    member: &[u8],
) -> Result<(), NoMemory>
    ensures { OnOk result (Writes out.old.items out.new.items (printed.at_binding 15
        (expression_in whole.now) (printed.expression (known names.now) (expression_in whole.now))
        ++ (mark punctuator ∷ name member.now ∷ []))) }
{
    put_at(out, names, 15, whole)?;
    put_mark(out, punctuator)?;
    put_name(out, member)?;
    Ok(())
}

/// Writes an expression and a punctuator behind it (C11 6.5.2.4).
#[cycle(printing)]
fn put_behind(
    out: &mut Vec<u8>,
    names: &[&[u8]],
    operand: &Expression,
    punctuator: Punctuator,
) -> Result<(), NoMemory>
    ensures { OnOk result (Writes out.old.items out.new.items (printed.at_binding 15
        (expression_in operand.now) (printed.expression (known names.now) (expression_in operand.now))
        ++ (mark punctuator ∷ []))) }
{
    put_at(out, names, 15, operand)?;
    put_mark(out, punctuator)?;
    Ok(())
}

/// Writes a punctuator and an operand behind it (C11 6.5.3).
#[cycle(printing)]
fn put_prefixed(
    out: &mut Vec<u8>,
    names: &[&[u8]],
    punctuator: Punctuator,
    level: u8,
    operand: &Expression,
) -> Result<(), NoMemory>
    ensures { OnOk result (Writes out.old.items out.new.items (mark punctuator
        ∷ printed.at_binding level (expression_in operand.now)
        (printed.expression (known names.now) (expression_in operand.now)))) }
{
    put_mark(out, punctuator)?;
    put_at(out, names, level, operand)?;
    Ok(())
}

/// Writes `sizeof` and an operand behind it (C11 6.5.3.4).
#[cycle(printing)]
fn put_size(out: &mut Vec<u8>, names: &[&[u8]], operand: &Expression) -> Result<(), NoMemory>
    ensures { OnOk result (Writes out.old.items out.new.items (printed.expression (known names.now)
        (t.size_of_expression 0 (expression_in operand.now)))) }
{
    put_keyword(out, Keyword::Sizeof)?;
    put_at(out, names, 14, operand)?;
    Ok(())
}

/// Writes an expression between two punctuators.
#[cycle(printing)]
fn put_enclosed(
    out: &mut Vec<u8>,
    names: &[&[u8]],
    opening: Punctuator,
    e: &Expression,
    closing: Punctuator,
) -> Result<(), NoMemory>
    ensures { OnOk result (Writes out.old.items out.new.items (mark opening
        ∷ (printed.expression (known names.now) (expression_in e.now) ++ (mark closing ∷ [])))) }
{
    put_mark(out, opening)?;
    put_expression(out, names, e)?;
    put_mark(out, closing)?;
    Ok(())
}

/// Writes a type name in parentheses (C11 6.5.3.4, 6.5.4).
#[cycle(printing)]
fn put_closed_type_name(out: &mut Vec<u8>, names: &[&[u8]], name: &TypeName) -> Result<(), NoMemory>
    ensures { OnOk result (Writes out.old.items out.new.items (mark punctuator.OpenParen
        ∷ (printed.type_name (known names.now) (type_name_of name.now)
        ++ (mark punctuator.CloseParen ∷ [])))) }
{
    put_mark(out, Punctuator::OpenParen)?;
    put_type_name(out, names, name)?;
    put_mark(out, Punctuator::CloseParen)?;
    Ok(())
}

/// Writes `sizeof` and a type name in parentheses (C11 6.5.3.4).
#[cycle(printing)]
fn put_size_of_type(out: &mut Vec<u8>, names: &[&[u8]], name: &TypeName) -> Result<(), NoMemory>
    ensures { OnOk result (Writes out.old.items out.new.items (printed.expression (known names.now)
        (t.size_of_type 0 (type_name_of name.now)))) }
{
    put_keyword(out, Keyword::Sizeof)?;
    put_closed_type_name(out, names, name)?;
    Ok(())
}

/// How tightly the left operand of a binary operator has to bind.
fn left_level(op: BinaryOp) -> u8
    ensures { result ≡ 3 + printed.operator_level op }
{
    3 + operator_level(op)
}

/// How tightly the right operand of a binary operator has to bind.
fn right_level(op: BinaryOp) -> u8
    ensures { result ≡ 4 + printed.operator_level op }
{
    4 + operator_level(op)
}

/// Writes arguments with commas between them.
#[cycle(printing)]
fn put_arguments(
    out: &mut Vec<u8>,
    names: &[&[u8]],
    arguments: &[Expression],
) -> Result<(), NoMemory>
    ensures { OnOk result (Writes out.old.items out.new.items
        (parts.separated (parts.argument_words (known names.now)) false arguments.now)) }
{
    let mut behind = false;
    for argument in arguments {
        put_comma_if(out, behind)?;
        put_at(out, names, 1, argument)?;
        behind = true;
    }
    Ok(())
}

/// Writes arguments in parentheses (C11 6.5.2.2).
#[cycle(printing)]
fn put_closed_arguments(
    out: &mut Vec<u8>,
    names: &[&[u8]],
    arguments: &[Expression],
) -> Result<(), NoMemory>
    ensures { OnOk result (Writes out.old.items out.new.items (mark punctuator.OpenParen
        ∷ (printed.arguments (known names.now) (expressions_from arguments.now)
        ++ (mark punctuator.CloseParen ∷ [])))) }
{
    put_mark(out, Punctuator::OpenParen)?;
    put_arguments(out, names, arguments)?;
    put_mark(out, Punctuator::CloseParen)?;
    Ok(())
}

/// Writes what stands before the operand with which a chain goes on.
#[cycle(printing)]
fn put_before_first(out: &mut Vec<u8>, names: &[&[u8]], e: &Expression) -> Result<(), NoMemory>
    ensures { OnOk result (Writes out.old.items out.new.items
        (parts.before_first (known names.now) (expression_in e.now))) }
{
    match &e.kind {
        ExpressionKind::Index(array, _) => put_parenthesis(out, 15, array, Punctuator::OpenParen),
        ExpressionKind::Call(callee, _) => put_parenthesis(out, 15, callee, Punctuator::OpenParen),
        ExpressionKind::Cast(name, operand) => {
            put_closed_type_name(out, names, name)?;
            put_parenthesis(out, 13, operand, Punctuator::OpenParen)?;
            Ok(())
        }
        _ => Ok(()),
    }
}

/// Writes what stands behind the operand with which a chain goes on.
#[cycle(printing)]
fn put_behind_first(out: &mut Vec<u8>, names: &[&[u8]], e: &Expression) -> Result<(), NoMemory>
    ensures { OnOk result (Writes out.old.items out.new.items
        (parts.behind_first (known names.now) (expression_in e.now))) }
{
    match &e.kind {
        ExpressionKind::Index(array, place) => {
            put_parenthesis(out, 15, array, Punctuator::CloseParen)?;
            put_enclosed(
                out,
                names,
                Punctuator::OpenBracket,
                place,
                Punctuator::CloseBracket,
            )?;
            Ok(())
        }
        ExpressionKind::Call(callee, arguments) => {
            put_parenthesis(out, 15, callee, Punctuator::CloseParen)?;
            put_closed_arguments(out, names, arguments)?;
            Ok(())
        }
        ExpressionKind::Cast(_, operand) => {
            put_parenthesis(out, 13, operand, Punctuator::CloseParen)
        }
        ExpressionKind::Comma(_, right) => put_prefixed(out, names, Punctuator::Comma, 1, right),
        _ => Ok(()),
    }
}

/// Writes an expression (C11 6.5). A loop goes down what is indexed, called or cast and what stands
/// in front of a comma, and one goes up again, so that chains of them take no stack.
#[cycle(printing)]
pub fn put_expression(out: &mut Vec<u8>, names: &[&[u8]], e: &Expression) -> Result<(), NoMemory>
    ensures { OnOk result (Writes out.old.items out.new.items (printed.expression (known names.now)
        (expression_in e.now))) }
{
    let mut links = Vec::new(*out.allocator());
    let mut rest = e;
    while let Some(first) = first_operand(rest) {
        put_before_first(out, names, rest)?;
        links.push(rest)?;
        rest = first;
    }
    put_form(out, names, rest)?;
    while let Some(link) = links.pop() {
        put_behind_first(out, names, link)?;
    }
    Ok(())
}

/// Writes an expression with which a chain ends.
#[cycle(printing)]
fn put_form(out: &mut Vec<u8>, names: &[&[u8]], e: &Expression) -> Result<(), NoMemory>
    requires ends { parts.is_link (expression_in e.now) ≡ false }
    ensures { OnOk result (Writes out.old.items out.new.items (printed.expression (known names.now)
        (expression_in e.now))) }
{
    match &e.kind {
        ExpressionKind::Identifier(name) => put_name(out, name),
        ExpressionKind::Number(number) => put_number(out, *number),
        ExpressionKind::Character(byte) => put_character(out, *byte),
        ExpressionKind::Text(bytes) => put_text(out, bytes),
        ExpressionKind::Member(whole, member) => {
            put_member(out, names, whole, Punctuator::Dot, member)
        }
        ExpressionKind::Arrow(whole, member) => {
            put_member(out, names, whole, Punctuator::Arrow, member)
        }
        ExpressionKind::PostStep(op, operand) => put_behind(out, names, operand, step_mark(*op)),
        ExpressionKind::PreStep(op, operand) => {
            put_prefixed(out, names, step_mark(*op), 14, operand)
        }
        ExpressionKind::Unary(op, operand) => {
            put_prefixed(out, names, prefix_mark(*op), 13, operand)
        }
        ExpressionKind::SizeOfExpression(operand) => put_size(out, names, operand),
        ExpressionKind::SizeOfType(name) => put_size_of_type(out, names, name),
        ExpressionKind::Binary(op, left, right) => {
            put_at(out, names, left_level(*op), left)?;
            put_prefixed(out, names, operator_mark(*op), right_level(*op), right)?;
            Ok(())
        }
        ExpressionKind::Conditional(test, first, second) => {
            put_at(out, names, 3, test)?;
            put_enclosed(out, names, Punctuator::Question, first, Punctuator::Colon)?;
            put_at(out, names, 2, second)?;
            Ok(())
        }
        ExpressionKind::Assign(op, left, right) => {
            put_at(out, names, 14, left)?;
            put_prefixed(out, names, assign_mark(*op), 1, right)?;
            Ok(())
        }
        ExpressionKind::Index(_, _)
        | ExpressionKind::Call(_, _)
        | ExpressionKind::Cast(_, _)
        | ExpressionKind::Comma(_, _) => unreachable!(),
    }
}
