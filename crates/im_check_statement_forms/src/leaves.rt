//! Statements that have no statement in them.
ghost use Rattle.std.specs.Prelude.{◌≡◌, ◌||◌, MatchResult, IfErr};
ghost use Rattle.im_ctree.specs.Shape.{optional_expression_of};
ghost use Rattle.im_ctree.specs.Tree as t;
ghost use Rattle.im_check_locals.specs.im_rules.Conversions as c;
ghost use Rattle.im_check_locals.specs.im_rules.Statements as st;
ghost use Rattle.im_check_locals.specs.im_rules.Terms as r;
ghost use Rattle.im_check_locals.specs.im_ctree_parts.Lists.{expression_in};
ghost use Rattle.im_check_stop.specs.declared.stop.Stop.TheVariants.{Memory};
ghost use Rattle.im_types.specs.Shape.{type_of};
ghost use Rattle.im_check_statement_forms.specs.Asked.{IsAsked};
ghost use Rattle.im_check_statement_forms.specs.Done.{IsLeaf};

use crate::asked::{evaluated, term};
use crate::made::block_made;
use im_check_conversions::{as_type, value_of};
use im_check_operands::fits;
use im_check_sites::{Body, Position};
use im_check_stop::{Stop, refused};
use im_ctree::Expression;
use im_typed::{Expr, Stmt};
use im_types::is_void;
use std::alloc::Global;

/// An expression statement (C11 6.8.3).
pub fn expression_statement(
    alloc: Global,
    at: u32,
    e: &Option<Expression>,
    position: Position,
    body: &mut Body,
) -> Result<Stmt, Stop>
    ensures { IsLeaf position body.old
        (t.expression_statement at (optional_expression_of e.now)) body.new result }
{
    match e {
        None => Ok(block_made(Vec::new(alloc))),
        Some(e) => {
            let value = evaluated(alloc, e, body)?;
            Ok(Stmt::Expr(value))
        }
    }
}

/// What a function returns (C11 6.8.6.4).
fn returned(alloc: Global, at: u32, e: &Expression, body: &mut Body) -> Result<Expr, Stop>
    ensures { IsAsked (st.return_value_asks (type_of body.old.result))
        (λ known x. c.as_type (type_of body.old.result) (r.value_of known x)) body.old
        (expression_in e.now) at body.new result }
{
    let x = term(alloc, e, body)?;
    if is_void(&body.result) {
        return Err(refused(34, at));
    }
    if !fits(&body.result, &x) {
        return Err(refused(17, at));
    }
    let value = value_of(alloc, body.place.structs.table(), x)?;
    let given = as_type(alloc, &body.result, value)?;
    Ok(given.tree)
}

/// A `return`, with what it gives (C11 6.8.6.4).
pub fn return_statement(
    alloc: Global,
    at: u32,
    e: &Option<Expression>,
    position: Position,
    body: &mut Body,
) -> Result<Stmt, Stop>
    ensures { IsLeaf position body.old (t.return_statement at (optional_expression_of e.now))
        body.new result }
{
    match e {
        None => {
            if is_void(&body.result) {
                Ok(Stmt::Return(None))
            } else {
                Err(refused(34, at))
            }
        }
        Some(e) => {
            let value = returned(alloc, at, e, body)?;
            Ok(Stmt::Return(Some(value)))
        }
    }
}

fn may_break(position: Position) -> bool
    ensures { result ≡ (position.in_loop || position.in_switch) }
{
    position.in_loop || position.in_switch
}

fn may_continue(position: Position) -> bool
    ensures { result ≡ position.in_loop }
{
    position.in_loop
}

/// A `break`, in a loop or a switch (C11 6.8.6.3).
pub fn break_statement(at: u32, position: Position, body: &Body) -> Result<Stmt, Stop>
    ensures leaf { IsLeaf position body.now (t.break_statement at) body.now result }
    ensures spared { IfErr result (λ stop. stop ≡ Memory → ⊥) }
{
    if may_break(position) {
        Ok(Stmt::Break)
    } else {
        Err(refused(34, at))
    }
}

/// A `continue`, in a loop (C11 6.8.6.2).
pub fn continue_statement(at: u32, position: Position, body: &Body) -> Result<Stmt, Stop>
    ensures leaf { IsLeaf position body.now (t.continue_statement at) body.now result }
    ensures spared { IfErr result (λ stop. stop ≡ Memory → ⊥) }
{
    if may_continue(position) {
        Ok(Stmt::Continue)
    } else {
        Err(refused(34, at))
    }
}

/// A label that stands in no switch's block.
pub fn stray_label(at: u32) -> Stop
    ensures { result ≡ Stop.Rule 34 at }
{
    refused(34, at)
}
