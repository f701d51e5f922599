ghost use Rattle.std.specs.Prelude.{◌≡◌, ◌<◌, ◌++◌, false, List, IfNone, IfSome, OnOk};
ghost use Rattle.im_word.specs.Words.{Name};
ghost use Rattle.im_ctree.specs.declared.expression.Expression.{size-Expression};
ghost use Rattle.im_print_relation.specs.Printed as printed;
ghost use Rattle.im_print_parts.specs.Output.{Writes};
ghost use Rattle.im_print_parts.specs.Parts as parts;
ghost use Rattle.im_ctree_parts.specs.Lists.{expression_in};

use crate::{binding, put_mark};
use im_ctree::{Expression, ExpressionKind};
use im_num::NoMemory;
use im_tok::Punctuator;

/// The operand with which a chain goes on: the first one of an index, a call or a comma, and what
/// is cast.
pub(crate) fn first_operand(e: &Expression) -> Option<&Expression>
    ensures chain { (T : List Name) → IfSome result (λ first.
        printed.expression T (expression_in e.now)
        ≡ parts.before_first T (expression_in e.now)
        ++ (printed.expression T (expression_in first.now)
        ++ parts.behind_first T (expression_in e.now))) }
    ensures last { IfNone result (parts.is_link (expression_in e.now) ≡ false) }
    ensures below { IfSome result (λ first. size-Expression first.now < size-Expression e.now) }
{
    match &e.kind {
        ExpressionKind::Index(first, _)
        | ExpressionKind::Call(first, _)
        | ExpressionKind::Cast(_, first)
        | ExpressionKind::Comma(first, _) => Some(first),
        _ => None,
    }
}

/// Writes a parenthesis of an operand, where it stands in some: where it binds more loosely than
/// `level` says.
pub(crate) fn put_parenthesis(
    out: &mut Vec<u8>,
    level: u8,
    operand: &Expression,
    parenthesis: Punctuator,
) -> Result<(), NoMemory>
    ensures { OnOk result (Writes out.old.items out.new.items
        (parts.parenthesis level (expression_in operand.now) parenthesis)) }
{
    if binding(operand) < level {
        return put_mark(out, parenthesis);
    }
    Ok(())
}
