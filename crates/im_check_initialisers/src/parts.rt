//! The parts of an initialiser, which live as long as the tree.
ghost use Rattle.std.specs.Prelude.{◌≡◌, ℕ};
ghost use Rattle.im_ctree.specs.Shape.{initializer_of};
ghost use Rattle.im_ctree.specs.Tree as t;
ghost use Rattle.im_ctype.specs.Types.{CType};
ghost use Rattle.im_check_expressions.specs.im_rules.Initialisers as n;
ghost use Rattle.im_ctree_parts.specs.Lists.{expression_in, initializers_from};
ghost use Rattle.im_check_initialisers.specs.Forms.{listed};

use im_ctree::{Expression, Initializer};

/// What stands in its braces; nothing where it has none.
pub(crate) fn items_of(i: &Initializer) -> &[Initializer]
    ensures { initializers_from result.now ≡ listed (initializer_of i.now) }
{
    match i {
        Initializer::Value(_) => &[],
        Initializer::List(_, items) => items,
    }
}

/// The expression that stands alone in braces.
fn first_value(items: &[Initializer]) -> &Expression
    requires { (at : ℕ) × (x : t.Expression)
        × (n.one_shape (t.braced_initializer at (initializers_from items.now)) ≡ n.one x) }
    ensures { (at : ℕ) (x : t.Expression)
        → n.one_shape (t.braced_initializer at (initializers_from items.now)) ≡ n.one x
        → x ≡ expression_in result.now }
{
    match &items[0] {
        Initializer::Value(e) => e,
        Initializer::List(_, _) => unreachable!(),
    }
}

/// The expression that an initialiser of this form is, also in braces.
pub(crate) fn expression_of(i: &Initializer) -> &Expression
    requires { (a : CType) × (x : t.Expression) × (n.shape a (initializer_of i.now) ≡ n.one x) }
    ensures { (a : CType) (x : t.Expression)
        → n.shape a (initializer_of i.now) ≡ n.one x → x ≡ expression_in result.now }
{
    match i {
        Initializer::Value(e) => e,
        Initializer::List(_, items) => first_value(items),
    }
}
