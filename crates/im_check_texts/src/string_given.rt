//! Initialisers. A string literal that initialises an array is no object of its own (C11 6.4.5p6,
//! 6.7.9p14): it has no number.
ghost use Rattle.std.specs.Prelude.{◌≡◌, ◌+◌, length, IfOk};
ghost use Rattle.im_ctree.specs.Shape.{initializer_of};
ghost use Rattle.im_ctype.specs.Table.{structs_of};
ghost use Rattle.im_ctype.specs.Types.{members_of};
ghost use Rattle.im_check_shapes.specs.im_rules.Initialisers.{strings_given, strings_among};
ghost use Rattle.im_check_shapes.specs.im_rules.Initialisers.{side_by_side, in_order, slots_of};
ghost use Rattle.im_ctree_parts.specs.Lists.{initializers_from};
ghost use Rattle.im_types.specs.Shape.{type_of};

use crate::slots::member_type;
use im_check_shapes::is_string_for;
use im_check_string_numbers::behind_expression;
use im_ctree::Initializer;
use im_ctype::TypeTable;
use im_num::NoMemory;
use im_types::Type;
use std::alloc::Global;

/// The number of the next string literal behind an initialiser of an object of that type, by that
/// before it. Want of memory where it is 2^32 or more.
#[cycle(given)]
pub fn behind_given(
    alloc: Global,
    table: &TypeTable,
    ty: &Type,
    next: u32,
    i: &Initializer,
) -> Result<u32, NoMemory>
    ensures { IfOk result (λ n. n ≡ next + length (strings_given (structs_of table.now)
        (type_of ty.now) (initializer_of i.now))) }
{
    if is_string_for(ty, i) {
        return Ok(next);
    }
    match i {
        Initializer::Value(e) => behind_expression(next, e),
        Initializer::List(_, items) => behind_list(alloc, table, ty, next, items),
    }
}

/// Behind what stands in the braces of an object of that type.
#[cycle(given)]
fn behind_list(
    alloc: Global,
    table: &TypeTable,
    ty: &Type,
    next: u32,
    items: &[Initializer],
) -> Result<u32, NoMemory>
    ensures { IfOk result (λ n. n ≡ next + length (strings_among (structs_of table.now)
        (slots_of (structs_of table.now) (type_of ty.now)) (initializers_from items.now))) }
{
    match ty {
        Type::Array(element, _) => behind_elements(alloc, table, element, next, items),
        Type::Unsized(element) => behind_elements(alloc, table, element, next, items),
        Type::Struct(number) => behind_members(alloc, table, *number, next, items),
        Type::Void | Type::Integer(_) | Type::Pointer(_, _) | Type::Function(_, _) => {
            behind_elements(alloc, table, ty, next, items)
        }
    }
}

#[cycle(given)]
fn behind_elements(
    alloc: Global,
    table: &TypeTable,
    element: &Type,
    next: u32,
    items: &[Initializer],
) -> Result<u32, NoMemory>
    ensures { IfOk result (λ n. n ≡ next + length (strings_among (structs_of table.now)
        (side_by_side (type_of element.now)) (initializers_from items.now))) }
{
    let mut done = next;
    for i in items {
        done = behind_given(alloc, table, element, done, i)?;
    }
    Ok(done)
}

#[cycle(given)]
fn behind_members(
    alloc: Global,
    table: &TypeTable,
    number: u32,
    next: u32,
    items: &[Initializer],
) -> Result<u32, NoMemory>
    ensures { IfOk result (λ n. n ≡ next + length (strings_among (structs_of table.now)
        (in_order (members_of (structs_of table.now) number)) (initializers_from items.now))) }
{
    let mut done = next;
    let mut index = 0;
    for i in items {
        let ty = member_type(alloc, table, number, index)?;
        done = behind_given(alloc, table, &ty, done, i)?;
        index += 1;
    }
    Ok(done)
}
