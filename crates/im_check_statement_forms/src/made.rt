//! Typed statements of their parts.
ghost use Rattle.std.specs.Prelude.{◌≡◌, length, MatchResult};
ghost use Rattle.im_ctype.specs.Table.{Table};
ghost use Rattle.im_typed.specs.Program as p;
ghost use Rattle.im_typed.specs.ProgramOf.{expr_of, stmt_of};
ghost use Rattle.im_check_stop.specs.Answers.{IsNoRule};
ghost use Rattle.im_check_sites.specs.Stmts.{stmts_from};
ghost use Rattle.im_check_statement_forms.specs.Labelling.{place_of};

use crate::heads::ForHead;
use crate::labels::{Labels, Selector};
use im_check_stop::Stop;
use im_num::beyond_memory;
use im_typed::{Case, Expr, Stmt};
use std::alloc::Global;

pub fn block_made(statements: Vec<Stmt>) -> Stmt
    ensures { (types : Table) → stmt_of types result ≡ p.Block (stmts_from types statements.items) }
{
    Stmt::Block(statements)
}

pub fn if_made(alloc: Global, test: Expr, first: Stmt, second: Stmt) -> Result<Stmt, Stop>
    ensures { MatchResult result (λ u. (types : Table) → stmt_of types u
        ≡ p.If (expr_of types test) (stmt_of types first) (stmt_of types second)) IsNoRule }
{
    let first = Box::new(alloc, first)?;
    let second = Box::new(alloc, second)?;
    Ok(Stmt::If(test, first, second))
}

pub fn while_made(alloc: Global, test: Expr, turn: Stmt) -> Result<Stmt, Stop>
    ensures { MatchResult result (λ u. (types : Table) → stmt_of types u
        ≡ p.While (expr_of types test) (stmt_of types turn)) IsNoRule }
{
    Ok(Stmt::While(test, Box::new(alloc, turn)?))
}

pub fn do_made(alloc: Global, turn: Stmt, test: Expr) -> Result<Stmt, Stop>
    ensures { MatchResult result (λ u. (types : Table) → stmt_of types u
        ≡ p.DoWhile (stmt_of types turn) (expr_of types test)) IsNoRule }
{
    Ok(Stmt::DoWhile(Box::new(alloc, turn)?, test))
}

pub fn for_made(alloc: Global, h: ForHead, turn: Stmt) -> Result<Stmt, Stop>
    ensures { MatchResult result (λ u. (types : Table) → stmt_of types u
        ≡ p.For (stmt_of types h.first) (expr_of types h.test) (expr_of types h.step)
        (stmt_of types turn)) IsNoRule }
{
    let first = Box::new(alloc, h.first)?;
    let body = Box::new(alloc, turn)?;
    Ok(Stmt::For {
        first,
        test: h.test,
        step: h.step,
        body,
    })
}

/// Without a `default` a switch goes behind its block.
fn place_otherwise(otherwise: Option<u32>, block: &[Stmt]) -> Result<u32, Stop>
    ensures { MatchResult result (λ n. n ≡ place_of otherwise (length block.now)) IsNoRule }
{
    match otherwise {
        Some(n) => Ok(n),
        None => match u32::try_from(block.len()) {
            Ok(n) => Ok(n),
            Err(_) => Err(Stop::from(beyond_memory())),
        },
    }
}

fn switch_of(value: Expr, cases: Vec<Case>, otherwise: u32, block: Vec<Stmt>) -> Stmt
    ensures { (types : Table) → stmt_of types result
        ≡ p.Switch (expr_of types value) cases.items otherwise (stmts_from types block.items) }
{
    Stmt::Switch {
        value,
        cases,
        otherwise,
        block,
    }
}

pub fn switch_made(chosen: Selector, labels: Labels, block: Vec<Stmt>) -> Result<Stmt, Stop>
    ensures { MatchResult result (λ u. (types : Table) → stmt_of types u
        ≡ p.Switch (expr_of types chosen.value) labels.cases.items
        (place_of labels.otherwise (length block.items)) (stmts_from types block.items)) IsNoRule }
{
    let otherwise = place_otherwise(labels.otherwise, &block)?;
    Ok(switch_of(chosen.value, labels.cases, otherwise, block))
}
