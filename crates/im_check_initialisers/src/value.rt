//! Objects that one expression initialises (C11 6.7.9p11, p13).
ghost use Rattle.std.specs.Prelude.{◌≡◌, MatchResult};
ghost use Rattle.im_ctree.specs.Shape.{initializer_of};
ghost use Rattle.im_ctree.specs.Tree as t;
ghost use Rattle.im_ctype.specs.Table.{structs_of};
ghost use Rattle.im_check_expressions.specs.im_rules.BodyBreaks.{an_initialiser};
ghost use Rattle.im_check_expressions.specs.im_rules.Demands.{Meets};
ghost use Rattle.im_check_expressions.specs.im_rules.Initialisers as n;
ghost use Rattle.im_check_expressions.specs.im_rules_limits.Limits.{IsGivenWithin};
ghost use Rattle.im_types.specs.Shape.{type_of};
ghost use Rattle.im_check_place.specs.Contexts.{context_of};
ghost use Rattle.im_check_initialisers.specs.Given.{IsGivenFault, IsInitialised};

use crate::parts::expression_of;
use im_check_expressions::expression;
use im_check_items::{Item, Source};
use im_check_operands::fits;
use im_check_place::Place;
use im_check_shapes::token_of;
use im_check_stop::{Stop, refused};
use im_ctree::Initializer;
use im_types::{Type, copy};
use std::alloc::Global;

/// An object whose initialiser has the form of one expression, which is to fit its type.
pub(crate) fn value<'a>(
    alloc: Global,
    ty: &Type,
    at: u64,
    i: &'a Initializer,
    place: &mut Place,
    items: &mut Vec<Item<'a>>,
) -> Result<(), Stop>
    requires { (e : t.Expression) × (n.shape (type_of ty.now) (initializer_of i.now) ≡ n.one e) }
    ensures { let a = type_of ty.now in let given = initializer_of i.now in
        (e : t.Expression) → n.shape a given ≡ n.one e
        → Meets (n.shape_asks (structs_of place.old.structs) a given) → MatchResult result
        (λ _. IsInitialised place.old a at given items.old.items place.new items.new.items
        × IsGivenWithin (context_of place.old) (an_initialiser a at given))
        (IsGivenFault (context_of place.old) (an_initialiser a at given)) }
{
    let e = expression_of(i);
    let term = expression(alloc, e, place)?;
    if !fits(ty, &term) {
        return Err(refused(17, token_of(i)));
    }
    let kept = copy(alloc, ty)?;
    items.push(Item {
        offset: at,
        ty: kept,
        source: Source::Term(e, term),
    })?;
    Ok(())
}
