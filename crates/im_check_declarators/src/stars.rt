//! Pointers (C11 6.7.6.1).
ghost use Rattle.std.specs.Prelude.{◌≡◌, ◌∷◌, []};
ghost use Rattle.im_rules.specs.Declared as d;
ghost use Rattle.im_rules.specs.Demands.{asks};
ghost use Rattle.im_rules.specs.Rules.{rule_10};
ghost use Rattle.im_ctree_parts.specs.Lists.{stars_in};
ghost use Rattle.im_types.specs.Shape.{type_of};
ghost use Rattle.im_check_type_specifiers.specs.Specified.{IsQualified, qualified_of};

use im_check_stop::{Stop, refused};
use im_check_type_specifiers::Qualified;
use im_ctree::Star;
use im_types::{Type, is_function, is_void, pointer_to};
use std::alloc::Global;

/// Whether a type may be a pointer's target or an array's element.
pub(crate) fn may_be_part(ty: &Type) -> bool
    ensures { result ≡ rule_10 (type_of ty.now) }
{
    !is_void(ty) && !is_function(ty)
}

fn starred(alloc: Global, at: u32, star: Star, q: Qualified) -> Result<Qualified, Stop>
    ensures { IsQualified (asks 10 (rule_10 (type_of q.ty)) ∷ [])
        (d.starred (qualified_of q) star.consts) at result }
{
    if !may_be_part(&q.ty) {
        return Err(refused(10, at));
    }
    Ok(Qualified {
        constant: star.consts > 0,
        ty: pointer_to(alloc, q.constant, q.ty)?,
    })
}

/// The type that stars make of another one, the first of them nearest to it; `at` is the first
/// token of their declarator.
pub fn with_stars(alloc: Global, at: u32, stars: &[Star], q: Qualified) -> Result<Qualified, Stop>
    ensures { IsQualified (d.stars_ask (qualified_of q) (stars_in stars.now))
        (d.with_stars (qualified_of q) (stars_in stars.now)) at result }
{
    let mut behind = q;
    for star in stars {
        behind = starred(alloc, at, *star, behind)?;
    }
    Ok(behind)
}
