ghost use Rattle.std.specs.Prelude.{◌≡◌};
ghost use Rattle.im_ctree.specs.Tree as t;
ghost use Rattle.im_ctree.specs.Shape.{for_init_of, optional_expression_of};
ghost use Rattle.im_parse_expression.specs.Parsing.{tree_of};
ghost use Rattle.im_parse_expression.specs.Declaring.{Makes};
ghost use Rattle.im_parse_statement.specs.Statements.{statement_tree, block_tree};

use im_ctree::{Block, Expression, ForInit, Statement, StatementKind};
use im_parse_core::Stop;
use std::alloc::Global;

pub fn block_statement(at: u32, body: Block) -> Statement
    ensures { statement_tree result ≡ t.block_statement at (block_tree body) }
{
    let kind = StatementKind::Block(body);
    Statement { at, kind }
}

pub fn if_alone(
    alloc: Global,
    at: u32,
    condition: Expression,
    body: Statement,
) -> Result<Statement, Stop>
    ensures { Makes statement_tree result
        (t.if_statement at (tree_of condition) (statement_tree body) t.no_statement) }
{
    let kind = StatementKind::If(condition, Box::new(alloc, body)?, None);
    Ok(Statement { at, kind })
}

pub fn if_else(
    alloc: Global,
    at: u32,
    condition: Expression,
    body: Statement,
    other: Statement,
) -> Result<Statement, Stop>
    ensures { Makes statement_tree result (t.if_statement at (tree_of condition)
        (statement_tree body) (t.a_statement (statement_tree other))) }
{
    let kind = StatementKind::If(
        condition,
        Box::new(alloc, body)?,
        Some(Box::new(alloc, other)?),
    );
    Ok(Statement { at, kind })
}

pub fn while_loop(
    alloc: Global,
    at: u32,
    condition: Expression,
    body: Statement,
) -> Result<Statement, Stop>
    ensures { Makes statement_tree result
        (t.while_statement at (tree_of condition) (statement_tree body)) }
{
    let kind = StatementKind::While(condition, Box::new(alloc, body)?);
    Ok(Statement { at, kind })
}

pub fn do_loop(
    alloc: Global,
    at: u32,
    body: Statement,
    condition: Expression,
) -> Result<Statement, Stop>
    ensures { Makes statement_tree result
        (t.do_statement at (statement_tree body) (tree_of condition)) }
{
    let kind = StatementKind::DoWhile(Box::new(alloc, body)?, condition);
    Ok(Statement { at, kind })
}

pub fn for_loop(
    alloc: Global,
    at: u32,
    init: ForInit,
    condition: Option<Expression>,
    step: Option<Expression>,
    body: Statement,
) -> Result<Statement, Stop>
    ensures { Makes statement_tree result (t.for_statement at (for_init_of init)
        (optional_expression_of condition) (optional_expression_of step) (statement_tree body)) }
{
    let kind = StatementKind::For(init, condition, step, Box::new(alloc, body)?);
    Ok(Statement { at, kind })
}

pub fn switch(at: u32, value: Expression, body: Block) -> Statement
    ensures { statement_tree result ≡ t.switch_statement at (tree_of value) (block_tree body) }
{
    let kind = StatementKind::Switch(value, body);
    Statement { at, kind }
}

pub fn case(alloc: Global, at: u32, value: Expression, body: Statement) -> Result<Statement, Stop>
    ensures { Makes statement_tree result
        (t.case_statement at (tree_of value) (statement_tree body)) }
{
    let kind = StatementKind::Case(value, Box::new(alloc, body)?);
    Ok(Statement { at, kind })
}

pub fn default(alloc: Global, at: u32, body: Statement) -> Result<Statement, Stop>
    ensures { Makes statement_tree result (t.default_statement at (statement_tree body)) }
{
    let kind = StatementKind::Default(Box::new(alloc, body)?);
    Ok(Statement { at, kind })
}
