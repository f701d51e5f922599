//! What an address constant may be reached by (C11 6.6p9).
ghost use Rattle.std.specs.Prelude.{◌≡◌, ◌<◌, IfOk, MatchResult};
ghost use Rattle.im_ctree.specs.declared.expression.Expression.{size-Expression};
ghost use Rattle.im_check_items.specs.im_rules.StaticValues as v;
ghost use Rattle.im_check_items.specs.im_ctree_parts.Lists.{expression_in};

use im_ctree::{Expression, ExpressionKind, UnaryOp};

/// The operand that decides whether an expression is reached directly; where none does, whether it
/// is.
#[cycle(directly)]
fn decided_by(e: &Expression) -> Result<&Expression, bool>
    ensures told { MatchResult result
        (λ first. v.is_reached_directly (expression_in e.now)
        ≡ v.is_reached_directly (expression_in first.now))
        (λ is_direct. is_direct ≡ v.is_reached_directly (expression_in e.now)) }
    ensures below { IfOk result (λ first. size-Expression first.now < size-Expression e.now) }
{
    match &e.kind {
        ExpressionKind::Unary(op, operand) => match op {
            UnaryOp::Dereference => Err(false),
            _ => Ok(operand),
        },
        ExpressionKind::Arrow(_, _) => Err(false),
        ExpressionKind::Member(whole, _) => Ok(whole),
        ExpressionKind::Index(left, right) | ExpressionKind::Binary(_, left, right) => {
            if is_reached_directly(right) {
                Ok(left)
            } else {
                Err(false)
            }
        }
        _ => Err(true),
    }
}

/// Whether no unary `*` and no `->` reaches what an expression designates. A loop goes down first
/// operands, so that chains of members, indices and operators take no stack.
#[cycle(directly)]
pub fn is_reached_directly(e: &Expression) -> bool
    ensures { result ≡ v.is_reached_directly (expression_in e.now) }
{
    let mut rest = e;
    loop {
        match decided_by(rest) {
            Ok(first) => rest = first,
            Err(is_direct) => return is_direct,
        }
    }
}
