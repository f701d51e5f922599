ghost use Rattle.im_ctree.specs.Tree as t;
ghost use Rattle.im_ctree.specs.Shape.{type_name_of};
ghost use Rattle.im_parse_expression.specs.Casts.{cast_over};
ghost use Rattle.im_parse_expression.specs.Parsing.{Builds, tree_of, items_tree};

use super::casts::CastType;
use im_ctree::{AssignOp, BinaryOp, Expression, ExpressionKind, StepOp, TypeName, UnaryOp};
use im_parse_core::Stop;
use std::alloc::Global;

pub fn index(
    alloc: Global,
    at: u32,
    base: Expression,
    place: Expression,
) -> Result<Expression, Stop>
    ensures { Builds result (t.index at (tree_of base) (tree_of place)) }
{
    let kind = ExpressionKind::Index(Box::new(alloc, base)?, Box::new(alloc, place)?);
    Ok(Expression { at, kind })
}

pub fn call(
    alloc: Global,
    at: u32,
    callee: Expression,
    mut arguments: Vec<Expression>,
) -> Result<Expression, Stop>
    ensures { Builds result (t.call at (tree_of callee) (items_tree arguments)) }
{
    arguments.shrink_to_fit();
    let kind = ExpressionKind::Call(Box::new(alloc, callee)?, arguments);
    Ok(Expression { at, kind })
}

pub fn member(alloc: Global, at: u32, base: Expression, name: &[u8]) -> Result<Expression, Stop>
    ensures { Builds result (t.member_of at (tree_of base) name.now) }
{
    let kind = ExpressionKind::Member(Box::new(alloc, base)?, Vec::from_slice(alloc, name)?);
    Ok(Expression { at, kind })
}

pub fn arrow(alloc: Global, at: u32, base: Expression, name: &[u8]) -> Result<Expression, Stop>
    ensures { Builds result (t.arrow_to at (tree_of base) name.now) }
{
    let kind = ExpressionKind::Arrow(Box::new(alloc, base)?, Vec::from_slice(alloc, name)?);
    Ok(Expression { at, kind })
}

pub fn post_step(
    alloc: Global,
    at: u32,
    operator: StepOp,
    operand: Expression,
) -> Result<Expression, Stop>
    ensures { Builds result (t.post_step at operator (tree_of operand)) }
{
    let kind = ExpressionKind::PostStep(operator, Box::new(alloc, operand)?);
    Ok(Expression { at, kind })
}

pub fn pre_step(
    alloc: Global,
    at: u32,
    operator: StepOp,
    operand: Expression,
) -> Result<Expression, Stop>
    ensures { Builds result (t.pre_step at operator (tree_of operand)) }
{
    let kind = ExpressionKind::PreStep(operator, Box::new(alloc, operand)?);
    Ok(Expression { at, kind })
}

pub fn unary(
    alloc: Global,
    at: u32,
    operator: UnaryOp,
    operand: Expression,
) -> Result<Expression, Stop>
    ensures { Builds result (t.unary at operator (tree_of operand)) }
{
    let kind = ExpressionKind::Unary(operator, Box::new(alloc, operand)?);
    Ok(Expression { at, kind })
}

pub fn size_of_expression(alloc: Global, at: u32, operand: Expression) -> Result<Expression, Stop>
    ensures { Builds result (t.size_of_expression at (tree_of operand)) }
{
    let kind = ExpressionKind::SizeOfExpression(Box::new(alloc, operand)?);
    Ok(Expression { at, kind })
}

pub fn size_of_type(alloc: Global, at: u32, name: TypeName) -> Result<Expression, Stop>
    ensures { Builds result (t.size_of_type at (type_name_of name)) }
{
    let kind = ExpressionKind::SizeOfType(Box::new(alloc, name)?);
    Ok(Expression { at, kind })
}

pub fn cast(alloc: Global, at: u32, name: TypeName, operand: Expression) -> Result<Expression, Stop>
    ensures { Builds result (t.cast at (type_name_of name) (tree_of operand)) }
{
    let kind = ExpressionKind::Cast(Box::new(alloc, name)?, Box::new(alloc, operand)?);
    Ok(Expression { at, kind })
}

/// An operand behind casts, of which the first is the outermost.
pub fn casts(
    alloc: Global,
    mut types: Vec<CastType>,
    operand: Expression,
) -> Result<Expression, Stop>
    ensures { Builds result (cast_over types.items (tree_of operand)) }
{
    let mut tree = operand;
    while let Some(CastType { at, name }) = types.pop() {
        tree = cast(alloc, at, name, tree)?;
    }
    Ok(tree)
}

pub fn binary(
    alloc: Global,
    at: u32,
    operator: BinaryOp,
    left: Expression,
    right: Expression,
) -> Result<Expression, Stop>
    ensures { Builds result (t.binary at operator (tree_of left) (tree_of right)) }
{
    let kind = ExpressionKind::Binary(operator, Box::new(alloc, left)?, Box::new(alloc, right)?);
    Ok(Expression { at, kind })
}

pub fn conditional(
    alloc: Global,
    at: u32,
    condition: Expression,
    chosen: Expression,
    other: Expression,
) -> Result<Expression, Stop>
    ensures { Builds result (t.conditional at (tree_of condition) (tree_of chosen)
        (tree_of other)) }
{
    let kind = ExpressionKind::Conditional(
        Box::new(alloc, condition)?,
        Box::new(alloc, chosen)?,
        Box::new(alloc, other)?,
    );
    Ok(Expression { at, kind })
}

pub fn assign(
    alloc: Global,
    at: u32,
    operator: AssignOp,
    left: Expression,
    right: Expression,
) -> Result<Expression, Stop>
    ensures { Builds result (t.assign at operator (tree_of left) (tree_of right)) }
{
    let kind = ExpressionKind::Assign(operator, Box::new(alloc, left)?, Box::new(alloc, right)?);
    Ok(Expression { at, kind })
}

pub fn comma(
    alloc: Global,
    at: u32,
    left: Expression,
    right: Expression,
) -> Result<Expression, Stop>
    ensures { Builds result (t.comma at (tree_of left) (tree_of right)) }
{
    let kind = ExpressionKind::Comma(Box::new(alloc, left)?, Box::new(alloc, right)?);
    Ok(Expression { at, kind })
}
