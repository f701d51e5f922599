//! The types that type names name (C11 6.7.7).
ghost use Rattle.std.specs.Prelude.{MatchResult, ◌≡◌};
ghost use Rattle.im_ctree.specs.Shape.{type_name_of};
ghost use Rattle.im_check_expression_parts.specs.im_rules.Breaks.{a_type_name};
ghost use Rattle.im_check_expression_parts.specs.im_rules.Strings.{strings_named};
ghost use Rattle.im_check_expression_parts.specs.im_rules.Typed.{Names};
ghost use Rattle.im_check_expression_parts.specs.im_rules_limits.Limits.{IsWithin};
ghost use Rattle.im_check_type_specifiers.specs.Specified.{qualified_of};
ghost use Rattle.im_check_declarators.specs.Suffixes.{IsFault};
ghost use Rattle.im_check_place.specs.Contexts.{context_of, behind_strings};

use crate::declarators::declarator_if_any;
use im_check_declarators::sized_type;
use im_check_place::Place;
use im_check_stop::Stop;
use im_check_type_specifiers::{Qualified, specified_type};
use im_ctree::TypeName;
use std::alloc::Global;

/// The type that a type name names.
#[cycle(walk)]
pub fn type_name(alloc: Global, name: &TypeName, place: &mut Place) -> Result<Qualified, Stop>
    ensures { let n = type_name_of name.now in MatchResult result
        (λ q. Names (context_of place.old) n (qualified_of q)
        × (place.new ≡ behind_strings (strings_named n) place.old)
        × IsWithin (context_of place.old) (a_type_name n))
        (IsFault (context_of place.old) (a_type_name n)) }
{
    let at = name.specifiers.at;
    let base = specified_type(
        alloc,
        &place.scope,
        &place.outline.lists,
        at,
        &name.specifiers.items,
    )?;
    let declared = declarator_if_any(alloc, base, &name.declarator, place)?;
    sized_type(at, declared)
}
