//! The walk over an initialiser and what stands in its braces.
ghost use Rattle.std.specs.Prelude.{◌≤◌, length, MatchResult};
ghost use Rattle.im_ctree.specs.Shape.{initializer_of};
ghost use Rattle.im_ctype.specs.Members.{places};
ghost use Rattle.im_ctype.specs.Table.{structs_of};
ghost use Rattle.im_ctype.specs.Types.{members_of};
ghost use Rattle.im_check_expressions.specs.im_rules.BodyBreaks.{an_initialiser, some_elements};
ghost use Rattle.im_check_expressions.specs.im_rules.BodyBreaks.{some_members};
ghost use Rattle.im_check_expressions.specs.im_rules.Initialisers.{Elements, InMembers};
ghost use Rattle.im_check_expressions.specs.im_rules.Initialisers.{strings_among, side_by_side};
ghost use Rattle.im_check_expressions.specs.im_rules.Initialisers.{in_order};
ghost use Rattle.im_check_expressions.specs.im_rules_limits.Limits.{IsGivenWithin};
ghost use Rattle.im_ctree_parts.specs.Lists.{initializers_from};
ghost use Rattle.im_types.specs.Shape.{type_of};
ghost use Rattle.im_check_place.specs.Contexts.{context_of};
ghost use Rattle.im_check_initialisers.specs.Given.{IsGivenFault, IsInitialised, IsPut};

use crate::member::{further, member_at};
use crate::parts::items_of;
use crate::value::value;
use im_check_items::{Item, push_bytes};
use im_check_place::Place;
use im_check_shapes::{Shape, shaped};
use im_check_stop::Stop;
use im_ctree::Initializer;
use im_num::beyond_memory;
use im_types::{Type, size};
use std::alloc::Global;

/// Puts what goes where in an object behind the items: an object of that type, which lies so many
/// bytes from the start of the whole. It goes on behind the string literals of the initialiser that
/// initialise no array. An initialiser that is no form of the type breaks rule 16, an expression
/// that doesn't fit breaks rule 17, and a type in an expression may be over the limit of sizes.
/// Want of memory where an offset is no number of 64 bits, or a string literal's number none of 32.
/// It recurs as deep as the tree is.
#[cycle(walk)]
pub fn initialised<'a>(
    alloc: Global,
    ty: &Type,
    at: u64,
    i: &'a Initializer,
    place: &mut Place,
    items: &mut Vec<Item<'a>>,
) -> Result<(), Stop>
    ensures { let a = type_of ty.now in let given = initializer_of i.now in MatchResult result
        (λ _. IsInitialised place.old a at given items.old.items place.new items.new.items
        × IsGivenWithin (context_of place.old) (an_initialiser a at given))
        (IsGivenFault (context_of place.old) (an_initialiser a at given)) }
{
    match shaped(place.structs.table(), ty, i)? {
        Shape::One(_) => value(alloc, ty, at, i, place, items),
        Shape::Bytes(element, bytes) => Ok(push_bytes(alloc, at, element, bytes, items)?),
        Shape::Elements(element, _) => elements(alloc, element, at, items_of(i), place, items),
        Shape::Members(number, _) => members(alloc, number, at, items_of(i), place, items),
        Shape::Misshapen => Err(Stop::from(beyond_memory())),
    }
}

/// Elements of that type, side by side.
#[cycle(walk)]
fn elements<'a>(
    alloc: Global,
    element: &Type,
    at: u64,
    written: &'a [Initializer],
    place: &mut Place,
    items: &mut Vec<Item<'a>>,
) -> Result<(), Stop>
    ensures { let c = context_of place.old in let b = type_of element.now in
        let is = initializers_from written.now in MatchResult result
        (λ _. IsPut (Elements c b at is)
        (strings_among (structs_of place.old.structs) (side_by_side b) is)
        place.old items.old.items place.new items.new.items
        × IsGivenWithin c (some_elements b at is))
        (IsGivenFault c (some_elements b at is)) }
{
    let each = size(place.structs.table(), element)?;
    let mut offset = at;
    for i in written {
        initialised(alloc, element, offset, i, place, items)?;
        offset = further(offset, each)?;
    }
    Ok(())
}

/// Members of the struct of that number, in their order; it has as many at least.
#[cycle(walk)]
fn members<'a>(
    alloc: Global,
    number: u32,
    at: u64,
    written: &'a [Initializer],
    place: &mut Place,
    items: &mut Vec<Item<'a>>,
) -> Result<(), Stop>
    requires { length written.now ≤ length (members_of (structs_of place.old.structs) number) }
    ensures { let c = context_of place.old in let known = structs_of place.old.structs in
        let is = initializers_from written.now in MatchResult result
        (λ _. IsPut (InMembers c (members_of known number) (places known number) at is)
        (strings_among known (in_order (members_of known number)) is)
        place.old items.old.items place.new items.new.items
        × IsGivenWithin c (some_members (members_of known number) (places known number) at is))
        (IsGivenFault c (some_members (members_of known number) (places known number) at is)) }
{
    let mut index = 0;
    for i in written {
        let member = member_at(alloc, place.structs.table(), number, index)?;
        let offset = further(at, member.offset)?;
        initialised(alloc, &member.ty, offset, i, place, items)?;
        index += 1;
    }
    Ok(())
}
