//! The terms of expressions that have operands, form by form, but for those with which a chain goes
//! on. None of these functions is inlined, so that the walk takes the stack of one of them at each
//! step down the tree, and not of all.
ghost use Rattle.std.specs.Prelude.{◌≡◌, None};
ghost use Rattle.im_check_scopes.specs.Shape.{scopes_of};
ghost use Rattle.im_ctree_parts.specs.Lists.{expression_in};
ghost use Rattle.im_check_expression_parts.specs.Walked.{IsTyped};
ghost use Rattle.im_check_expressions.specs.Forms.{IsCall, IsUnary, IsOperation};
ghost use Rattle.im_check_expressions.specs.Links.{first_of};

use crate::expressions::{expression, terms};
use crate::leaves::called;
use crate::type_names::type_name;
use im_check_conversions::type_in;
use im_check_forms::{
    assign_term, binary_term, conditional_term, size_term, step_term, unary_term,
};
use im_check_operands::Term;
use im_check_place::Place;
use im_check_stop::Stop;
use im_ctree::{Expression, ExpressionKind};
use std::alloc::Global;

/// The term of a call of a function by its name (C11 6.5.2.2).
#[cycle(walk)]
#[inline(never)]
pub(crate) fn call(alloc: Global, e: &Expression, place: &mut Place) -> Result<Term, Stop>
    requires form { IsCall e.now.kind }
    requires ends { first_of (scopes_of place.old.scope) (expression_in e.now) ≡ None }
    ensures { IsTyped place.old (expression_in e.now) place.new result }
{
    let ExpressionKind::Call(callee, arguments) = &e.kind else {
        unreachable!()
    };
    let xs = terms(alloc, arguments, place)?;
    called(alloc, place, e.at, callee, xs)
}

/// The term of an expression of one operand (C11 6.5.3).
#[cycle(walk)]
#[inline(never)]
pub(crate) fn unary(alloc: Global, e: &Expression, place: &mut Place) -> Result<Term, Stop>
    requires { IsUnary e.now.kind }
    ensures { IsTyped place.old (expression_in e.now) place.new result }
{
    match &e.kind {
        ExpressionKind::PreStep(op, operand) => {
            let x = expression(alloc, operand, place)?;
            step_term(
                alloc,
                place.structs.table(),
                place.structs.free(),
                e.at,
                *op,
                false,
                x,
            )
        }
        ExpressionKind::Unary(op, operand) => {
            let x = expression(alloc, operand, place)?;
            unary_term(alloc, place.structs.table(), e.at, *op, x)
        }
        ExpressionKind::SizeOfExpression(operand) => {
            let x = expression(alloc, operand, place)?;
            size_term(place.structs.table(), e.at, type_in(&x))
        }
        ExpressionKind::SizeOfType(name) => {
            let q = type_name(alloc, name, place)?;
            size_term(place.structs.table(), e.at, &q.ty)
        }
        _ => unreachable!(),
    }
}

/// The term of a binary or conditional expression or of an assignment (C11 6.5.5 to 6.5.16).
#[cycle(walk)]
#[inline(never)]
pub(crate) fn operation(alloc: Global, e: &Expression, place: &mut Place) -> Result<Term, Stop>
    requires { IsOperation e.now.kind }
    ensures { IsTyped place.old (expression_in e.now) place.new result }
{
    match &e.kind {
        ExpressionKind::Binary(op, left, right) => {
            let x = expression(alloc, left, place)?;
            let y = expression(alloc, right, place)?;
            binary_term(alloc, place.structs.table(), e.at, *op, x, y)
        }
        ExpressionKind::Conditional(test, first, second) => {
            let w = expression(alloc, test, place)?;
            let x = expression(alloc, first, place)?;
            let y = expression(alloc, second, place)?;
            conditional_term(alloc, place.structs.table(), e.at, w, x, y)
        }
        ExpressionKind::Assign(op, left, right) => {
            let x = expression(alloc, left, place)?;
            let y = expression(alloc, right, place)?;
            assign_term(
                alloc,
                place.structs.table(),
                place.structs.free(),
                e.at,
                *op,
                x,
                y,
            )
        }
        _ => unreachable!(),
    }
}
