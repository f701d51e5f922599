ghost use Rattle.std.specs.Prelude.{◌≡◌, ◌<◌, ◌++◌, IfSome};
ghost use Rattle.im_ctree.specs.declared.expression.Expression.{size-Expression};
ghost use Rattle.im_rules.specs.Strings.{strings_in};
ghost use Rattle.im_ctree_parts.specs.Lists.{expression_in};
ghost use Rattle.im_check_string_numbers.specs.Chains.{before_first, behind_first};

use im_ctree::{Expression, ExpressionKind};

/// The operand with which a chain goes on: the first one of an index, a call or a comma, and what
/// is cast.
pub fn first_operand(e: &Expression) -> Option<&Expression>
    ensures chain { IfSome result (λ first. strings_in (expression_in e.now)
        ≡ before_first (expression_in e.now)
        ++ (strings_in (expression_in first.now) ++ behind_first (expression_in e.now))) }
    ensures below { IfSome result (λ first. size-Expression first.now < size-Expression e.now) }
{
    match &e.kind {
        ExpressionKind::Index(first, _)
        | ExpressionKind::Call(first, _)
        | ExpressionKind::Cast(_, first)
        | ExpressionKind::Comma(first, _) => Some(first),
        _ => None,
    }
}
