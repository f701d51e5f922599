//! The head of a `for` (C11 6.8.5.3).
ghost use Rattle.std.specs.Prelude.{◌≡◌, [], MatchResult};
ghost use Rattle.im_ctree.specs.Shape.{for_init_of, optional_expression_of};
ghost use Rattle.im_ctree.specs.Tree as t;
ghost use Rattle.im_check_locals.specs.im_rules.Statements as st;
ghost use Rattle.im_check_statement_forms.specs.Done.{BeginDone, IsBeginFault, TestDone, StepDone};
ghost use Rattle.im_check_statement_forms.specs.Done.{IsMaybeFault, HeadDone, IsHeadFault};

use crate::asked::{evaluated, tested};
use crate::made::block_made;
use crate::scopes::opened;
use im_check_locals::declaration;
use im_check_sites::Body;
use im_check_stop::Stop;
use im_ctree::{Expression, ForInit};
use im_num::Kind;
use im_typed::{Expr, Stmt};
use std::alloc::Global;

/// What a `for` begins with, what it tests before each turn, and what ends each turn.
#[derive(Drop)]
pub struct ForHead {
    pub first: Stmt,
    pub test: Expr,
    pub step: Expr,
}

fn beginning(alloc: Global, i: &ForInit, body: &mut Body) -> Result<Stmt, Stop>
    ensures { MatchResult result (BeginDone body.old
        (for_init_of i.now) body.new) (IsBeginFault body.old (for_init_of i.now)) }
{
    match i {
        ForInit::Declaration(d) => {
            let mut done = Vec::new(alloc);
            declaration(alloc, d, body, &mut done)?;
            Ok(block_made(done))
        }
        ForInit::Expression(e) => begun(alloc, e, body),
    }
}

/// An expression that a `for` begins with.
fn begun(alloc: Global, e: &Option<Expression>, body: &mut Body) -> Result<Stmt, Stop>
    ensures { MatchResult result (BeginDone body.old
        (t.for_expression (optional_expression_of e.now)) body.new)
        (IsBeginFault body.old (t.for_expression (optional_expression_of e.now))) }
{
    match e {
        None => Ok(block_made(Vec::new(alloc))),
        Some(e) => {
            let value = evaluated(alloc, e, body)?;
            Ok(Stmt::Expr(value))
        }
    }
}

/// Without a condition the number 1.
fn condition(alloc: Global, at: u32, c: &Option<Expression>, body: &mut Body) -> Result<Expr, Stop>
    ensures { MatchResult result
        (TestDone body.old (optional_expression_of c.now) body.new)
        (IsMaybeFault st.condition_asks body.old (optional_expression_of c.now) at) }
{
    match c {
        None => Ok(Expr::Number(Kind::I32, 1)),
        Some(e) => tested(alloc, at, e, body),
    }
}

/// Without an expression the number 0.
fn step(alloc: Global, n: &Option<Expression>, body: &mut Body) -> Result<Expr, Stop>
    ensures { MatchResult result
        (StepDone body.old (optional_expression_of n.now) body.new)
        (IsMaybeFault (λ x. []) body.old (optional_expression_of n.now) 0) }
{
    match n {
        None => Ok(Expr::Number(Kind::I32, 0)),
        Some(e) => evaluated(alloc, e, body),
    }
}

/// A scope is opened, which holds in all of the statement (C11 6.8.5p5).
pub fn head(
    alloc: Global,
    at: u32,
    i: &ForInit,
    c: &Option<Expression>,
    n: &Option<Expression>,
    body: &mut Body,
) -> Result<ForHead, Stop>
    ensures { MatchResult result
        (HeadDone body.old (for_init_of i.now) (optional_expression_of c.now)
        (optional_expression_of n.now) body.new) (IsHeadFault body.old at
        (for_init_of i.now) (optional_expression_of c.now) (optional_expression_of n.now)) }
{
    opened(body)?;
    let first = beginning(alloc, i, body)?;
    let test = condition(alloc, at, c, body)?;
    let last = step(alloc, n, body)?;
    Ok(ForHead {
        first,
        test,
        step: last,
    })
}
