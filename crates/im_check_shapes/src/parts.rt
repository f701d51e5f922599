//! The expression or the string that an initialiser is, also in one pair of braces (C11 6.7.9p11,
//! p14).
ghost use Rattle.std.specs.Prelude.{◌≡◌, ◌∷◌, [], None, Some, length, MatchOption};
ghost use Rattle.im_ctree.specs.Shape.{initializer_of};
ghost use Rattle.im_ctree.specs.Tree as t;
ghost use Rattle.im_check_stop.specs.im_rules.BodyBreaks.{initialiser_token};
ghost use Rattle.im_ctree_parts.specs.Lists.{expression_in, initializers_from};
ghost use Rattle.im_check_shapes.specs.Parts.{expression_alone, only_expression, string_alone};
ghost use Rattle.im_check_shapes.specs.Parts.{text_if, text_of};

use im_ctree::{Expression, ExpressionKind, Initializer};

/// The number of its first token.
pub fn token_of(i: &Initializer) -> u32
    ensures { result ≡ initialiser_token (initializer_of i.now) }
{
    match i {
        Initializer::Value(e) => e.at,
        Initializer::List(at, _) => *at,
    }
}

/// The bytes of a string literal.
pub(crate) fn text_in(e: &Expression) -> Option<&[u8]>
    ensures { MatchOption result (text_of (expression_in e.now) ≡ None)
        (λ s. text_of (expression_in e.now) ≡ Some s.now) }
{
    match &e.kind {
        ExpressionKind::Text(s) => Some(s),
        ExpressionKind::Identifier(_)
        | ExpressionKind::Number(_)
        | ExpressionKind::Character(_)
        | ExpressionKind::Index(_, _)
        | ExpressionKind::Call(_, _)
        | ExpressionKind::Member(_, _)
        | ExpressionKind::Arrow(_, _)
        | ExpressionKind::PostStep(_, _)
        | ExpressionKind::PreStep(_, _)
        | ExpressionKind::Unary(_, _)
        | ExpressionKind::SizeOfExpression(_)
        | ExpressionKind::SizeOfType(_)
        | ExpressionKind::Cast(_, _)
        | ExpressionKind::Binary(_, _, _)
        | ExpressionKind::Conditional(_, _, _)
        | ExpressionKind::Assign(_, _, _)
        | ExpressionKind::Comma(_, _) => None,
    }
}

fn value_in(i: &Initializer) -> Option<&Expression>
    ensures { MatchOption result (only_expression (initializers_from (i.now ∷ [])) ≡ None)
        (λ e. initializer_of i.now ≡ t.value_initializer (expression_in e.now)) }
{
    match i {
        Initializer::Value(e) => Some(e),
        Initializer::List(_, _) => None,
    }
}

fn only(items: &[Initializer]) -> Option<&Initializer>
    ensures { MatchOption result (length items.now ≡ 1 → ⊥) (λ x. items.now ≡ x.now ∷ []) }
{
    if items.len() == 1 {
        Some(&items[0])
    } else {
        None
    }
}

/// The expression that stands alone among braces.
fn only_value(items: &[Initializer]) -> Option<&Expression>
    ensures { MatchOption result (only_expression (initializers_from items.now) ≡ None)
        (λ e. only_expression (initializers_from items.now) ≡ Some (expression_in e.now)) }
{
    match only(items) {
        Some(i) => value_in(i),
        None => None,
    }
}

/// The expression that an initialiser is.
pub(crate) fn one_expression(i: &Initializer) -> Option<&Expression>
    ensures { MatchOption result (expression_alone (initializer_of i.now) ≡ None)
        (λ e. expression_alone (initializer_of i.now) ≡ Some (expression_in e.now)) }
{
    match i {
        Initializer::Value(e) => Some(e),
        Initializer::List(_, items) => only_value(items),
    }
}

/// The string that stands alone among braces.
pub(crate) fn only_string(items: &[Initializer]) -> Option<&[u8]>
    ensures { MatchOption result (text_if (only_expression (initializers_from items.now)) ≡ None)
        (λ s. text_if (only_expression (initializers_from items.now)) ≡ Some s.now) }
{
    match only_value(items) {
        Some(e) => text_in(e),
        None => None,
    }
}

/// The string that an initialiser is.
pub(crate) fn string_in(i: &Initializer) -> Option<&[u8]>
    ensures { MatchOption result (string_alone (initializer_of i.now) ≡ None)
        (λ s. string_alone (initializer_of i.now) ≡ Some s.now) }
{
    match i {
        Initializer::Value(e) => text_in(e),
        Initializer::List(_, items) => only_string(items),
    }
}
