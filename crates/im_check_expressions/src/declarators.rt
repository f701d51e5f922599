//! What declarators declare (C11 6.7.6).
ghost use Rattle.std.specs.Prelude.{MatchResult, ◌≡◌};
ghost use Rattle.im_ctree.specs.Shape.{declarator_of, core_of};
ghost use Rattle.im_check_expression_parts.specs.im_rules.Breaks.{a_declarator, a_core};
ghost use Rattle.im_check_expression_parts.specs.im_rules.Breaks.{maybe_declarator};
ghost use Rattle.im_check_expression_parts.specs.im_rules.Strings.{strings_may};
ghost use Rattle.im_check_expression_parts.specs.im_rules.Strings.{strings_of_declarator};
ghost use Rattle.im_check_expression_parts.specs.im_rules.Strings.{strings_of_core};
ghost use Rattle.im_check_expression_parts.specs.im_rules.Typed.{MayDeclare, Declares, DeclaresIn};
ghost use Rattle.im_check_expression_parts.specs.im_rules_limits.Limits.{IsWithin};
ghost use Rattle.im_ctree_parts.specs.Lists.{declarator_from};
ghost use Rattle.im_check_type_specifiers.specs.Specified.{qualified_of};
ghost use Rattle.im_check_declarators.specs.Shape.{declared_of};
ghost use Rattle.im_check_declarators.specs.Suffixes.{IsFault};
ghost use Rattle.im_check_place.specs.Contexts.{context_of, behind_strings};

use crate::suffixes::given;
use im_check_declarators::{Declared, called, suffixed, unnamed, with_stars};
use im_check_place::Place;
use im_check_stop::Stop;
use im_check_string_numbers::behind_core;
use im_check_type_specifiers::Qualified;
use im_ctree::{Core, Declarator};
use std::alloc::Global;

/// What a declarator declares of that type, if there is one.
#[cycle(walk)]
pub fn declarator_if_any(
    alloc: Global,
    q: Qualified,
    written: &Option<Box<Declarator>>,
    place: &mut Place,
) -> Result<Declared, Stop>
    ensures { let m = declarator_from written.now in MatchResult result
        (λ y. MayDeclare (context_of place.old) (qualified_of q) m (declared_of y)
        × (place.new ≡ behind_strings (strings_may m) place.old)
        × IsWithin (context_of place.old) (maybe_declarator (qualified_of q) m))
        (IsFault (context_of place.old) (maybe_declarator (qualified_of q) m)) }
{
    match written {
        None => Ok(unnamed(q)),
        Some(d) => declarator(alloc, q, d, place),
    }
}

/// What a declarator declares, given the type that its specifiers name. What stands in its middle
/// is read behind its suffixes, whose type it is given.
#[cycle(walk)]
pub fn declarator(
    alloc: Global,
    q: Qualified,
    d: &Declarator,
    place: &mut Place,
) -> Result<Declared, Stop>
    ensures { let e = declarator_of d.now in MatchResult result
        (λ y. Declares (context_of place.old) (qualified_of q) e (declared_of y)
        × (place.new ≡ behind_strings (strings_of_declarator e) place.old)
        × IsWithin (context_of place.old) (a_declarator (qualified_of q) e))
        (IsFault (context_of place.old) (a_declarator (qualified_of q) e)) }
{
    let base = with_stars(alloc, d.at, &d.stars, q)?;
    let start = place.next_string;
    place.next_string = behind_core(start, &d.core)?;
    let parts = given(alloc, &d.suffixes, place)?;
    let ty = suffixed(alloc, place.structs.table(), &d.suffixes, &parts, base)?;
    let end = place.next_string;
    place.next_string = start;
    let declared = middle(alloc, ty, &d.core, place)?;
    place.next_string = end;
    Ok(declared)
}

/// What a declarator's middle declares, given the type that what stands round it makes.
#[cycle(walk)]
fn middle(alloc: Global, q: Qualified, core: &Core, place: &mut Place) -> Result<Declared, Stop>
    ensures { let k = core_of core.now in MatchResult result
        (λ y. DeclaresIn (context_of place.old) (qualified_of q) k (declared_of y)
        × (place.new ≡ behind_strings (strings_of_core k) place.old)
        × IsWithin (context_of place.old) (a_core (qualified_of q) k))
        (IsFault (context_of place.old) (a_core (qualified_of q) k)) }
{
    match core {
        Core::Absent => Ok(unnamed(q)),
        Core::Name(name) => Ok(called(Vec::from_slice(alloc, name)?, q)),
        Core::Inner(inner) => declarator(alloc, q, inner, place),
    }
}
