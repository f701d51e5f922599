//! Expressions of which a statement asks something more.
ghost use Rattle.std.specs.Prelude.{◌≡◌, [], MatchResult};
ghost use Rattle.im_check_locals.specs.im_rules.Statements as st;
ghost use Rattle.im_check_locals.specs.im_rules.Terms as r;
ghost use Rattle.im_check_locals.specs.im_ctree_parts.Lists.{expression_in};
ghost use Rattle.im_check_statement_forms.specs.Asked.{IsAsked, IsTermRead};

use im_check_conversions::value_of;
use im_check_locals::expression;
use im_check_operands::{Term, is_scalar_term};
use im_check_sites::Body;
use im_check_stop::{Stop, refused};
use im_check_texts::append_expression;
use im_ctree::Expression;
use im_typed::Expr;
use std::alloc::Global;

/// The term of an expression; its string literals stand behind those before it.
pub fn term(alloc: Global, e: &Expression, body: &mut Body) -> Result<Term, Stop>
    ensures { IsTermRead body.old (expression_in e.now) body.new result }
{
    let x = expression(alloc, e, &mut body.place)?;
    append_expression(alloc, e, &mut body.texts)?;
    Ok(x)
}

/// The value of an expression.
pub fn evaluated(alloc: Global, e: &Expression, body: &mut Body) -> Result<Expr, Stop>
    ensures { IsAsked (λ x. []) (λ known x. (r.value_of known x).expr) body.old
        (expression_in e.now) 0 body.new result }
{
    let x = term(alloc, e, body)?;
    let value = value_of(alloc, body.place.structs.table(), x)?;
    Ok(value.expr.tree)
}

/// A condition (C11 6.8.4.1p1, 6.8.5p2).
pub fn tested(alloc: Global, at: u32, e: &Expression, body: &mut Body) -> Result<Expr, Stop>
    ensures { IsAsked st.condition_asks (λ known x. (r.value_of known x).expr) body.old
        (expression_in e.now) at body.new result }
{
    let x = term(alloc, e, body)?;
    if !is_scalar_term(&x) {
        return Err(refused(25, at));
    }
    let value = value_of(alloc, body.place.structs.table(), x)?;
    Ok(value.expr.tree)
}
