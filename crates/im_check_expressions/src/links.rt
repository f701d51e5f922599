//! Chains of expressions by their first operands: what is indexed, called or cast, what has a
//! member or is stepped, and what stands before a comma. No nesting bounds them, so a loop goes
//! down each and up again.
ghost use Rattle.std.specs.Prelude.{◌≡◌, ◌<◌, Ok, Some, None, IfSome, MatchOption, MatchResult};
ghost use Rattle.im_ctree.specs.Tree as t;
ghost use Rattle.im_ctree.specs.declared.expression.Expression.{size-Expression};
ghost use Rattle.im_check_expression_parts.specs.im_rules.Scopes.{Scopes};
ghost use Rattle.im_check_expression_parts.specs.im_rules.Breaks.{an_expression};
ghost use Rattle.im_check_scopes.specs.Shape.{scopes_of};
ghost use Rattle.im_ctree_parts.specs.Lists.{expression_in};
ghost use Rattle.im_check_declarators.specs.Suffixes.{IsFault};
ghost use Rattle.im_check_place.specs.Contexts.{context_of};
ghost use Rattle.im_check_place.specs.declared.place.Place as places;
ghost use Rattle.im_check_expression_parts.specs.Walked.{IsTyped};
ghost use Rattle.im_check_expressions.specs.Links.{first_of, IsNamed, IsLinked};

use crate::expressions::{expression, terms};
use crate::leaves::{names_function, not_called};
use crate::type_names::type_name;
use im_check_forms::{cast_term, comma_term, index_term, step_term};
use im_check_members::{arrowed, dotted};
use im_check_operands::Term;
use im_check_place::Place;
use im_check_scopes::Scope;
use im_check_stop::Stop;
use im_check_type_specifiers::Qualified;
use im_ctree::{Expression, ExpressionKind};
use std::alloc::Global;

/// An expression whose first operand is typed before it, and of a cast its type.
#[derive(Drop)]
pub(crate) struct Link<'a> {
    pub(crate) whole: &'a Expression,
    pub(crate) named: Option<Qualified>,
}

/// The operand with which a chain goes on, or none where it ends. A function's name that is called
/// is no operand.
pub(crate) fn first_operand<'a>(scope: &Scope, e: &'a Expression) -> Option<&'a Expression>
    ensures first { let known = first_of (scopes_of scope.now) (expression_in e.now) in
        MatchOption result (known ≡ None) (λ first. known ≡ Some (expression_in first.now)) }
    ensures below { IfSome result (λ first. size-Expression first.now < size-Expression e.now) }
{
    match &e.kind {
        ExpressionKind::Index(first, _) => Some(first),
        ExpressionKind::Call(callee, _) => {
            if names_function(scope, callee) {
                None
            } else {
                Some(callee)
            }
        }
        ExpressionKind::Member(first, _) => Some(first),
        ExpressionKind::Arrow(first, _) => Some(first),
        ExpressionKind::PostStep(_, first) => Some(first),
        ExpressionKind::Cast(_, first) => Some(first),
        ExpressionKind::Comma(first, _) => Some(first),
        ExpressionKind::Identifier(_)
        | ExpressionKind::Number(_)
        | ExpressionKind::Character(_)
        | ExpressionKind::Text(_)
        | ExpressionKind::PreStep(_, _)
        | ExpressionKind::Unary(_, _)
        | ExpressionKind::SizeOfExpression(_)
        | ExpressionKind::SizeOfType(_)
        | ExpressionKind::Binary(_, _, _)
        | ExpressionKind::Conditional(_, _, _)
        | ExpressionKind::Assign(_, _, _) => None,
    }
}

/// The type of a cast, if an expression is one. String literals in it count before its operand's.
#[cycle(walk)]
#[inline(never)]
pub(crate) fn named_type(
    alloc: Global,
    e: &Expression,
    place: &mut Place,
) -> Result<Option<Qualified>, Stop>
    ensures { MatchResult result (λ named. IsNamed place.old (expression_in e.now) named place.new)
        (IsFault (context_of place.old) (an_expression (expression_in e.now))) }
{
    match &e.kind {
        ExpressionKind::Cast(name, _) => {
            let q = type_name(alloc, name, place)?;
            Ok(Some(q))
        }
        _ => Ok(None),
    }
}

/// The term of a link, from that of its first operand.
#[cycle(walk)]
#[inline(never)]
pub(crate) fn linked(
    alloc: Global,
    whole: &Expression,
    named: Option<Qualified>,
    x: Term,
    place: &mut Place,
) -> Result<Term, Stop>
    requires { (p : places.Place) × (q : places.Place) × (f : t.Expression)
        × IsLinked p (expression_in whole.now) named q f }
    ensures { (p q : places.Place) (f : t.Expression)
        → IsLinked p (expression_in whole.now) named q f
        → IsTyped q f place.old (Ok x)
        → IsTyped p (expression_in whole.now) place.new result }
{
    match named {
        Some(q) => cast_term(alloc, place.structs.table(), whole.at, q.ty, x),
        None => continued(alloc, whole, x, place),
    }
}

/// The term of an expression other than a cast, from that of its first operand (C11 6.5.2, 6.5.17).
#[cycle(walk)]
#[inline(never)]
fn continued(alloc: Global, whole: &Expression, x: Term, place: &mut Place) -> Result<Term, Stop>
    requires { (p : places.Place) × (q : places.Place) × (f : t.Expression)
        × IsLinked p (expression_in whole.now) None q f }
    ensures { (p q : places.Place) (f : t.Expression)
        → IsLinked p (expression_in whole.now) None q f
        → IsTyped q f place.old (Ok x)
        → IsTyped p (expression_in whole.now) place.new result }
{
    match &whole.kind {
        ExpressionKind::Index(_, by) => {
            let y = expression(alloc, by, place)?;
            index_term(alloc, place.structs.table(), whole.at, x, y)
        }
        ExpressionKind::Call(_, arguments) => {
            let xs = terms(alloc, arguments, place)?;
            Err(not_called(whole.at, x, xs))
        }
        ExpressionKind::Member(_, name) => {
            dotted(alloc, place.structs.table(), whole.at, x, name)
        }
        ExpressionKind::Arrow(_, name) => {
            arrowed(alloc, place.structs.table(), whole.at, x, name)
        }
        ExpressionKind::PostStep(op, _) => step_term(
            alloc,
            place.structs.table(),
            place.structs.free(),
            whole.at,
            *op,
            true,
            x,
        ),
        ExpressionKind::Comma(_, right) => {
            let y = expression(alloc, right, place)?;
            Ok(comma_term(alloc, place.structs.table(), x, y)?)
        }
        _ => unreachable!(),
    }
}
