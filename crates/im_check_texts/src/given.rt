//! Initialisers. A string literal that initialises an array is no object of its own (C11 6.4.5p6,
//! 6.7.9p14), so its bytes are left out.
ghost use Rattle.std.specs.Prelude.{◌≡◌, ◌++◌, OnOk};
ghost use Rattle.im_ctree.specs.Shape.{initializer_of, maybe_initializer_of};
ghost use Rattle.im_ctype.specs.Table.{structs_of};
ghost use Rattle.im_ctype.specs.Types.{members_of};
ghost use Rattle.im_check_texts.specs.im_rules.Initialisers.{strings_given, strings_among};
ghost use Rattle.im_check_texts.specs.im_rules.Initialisers.{side_by_side, in_order, slots_of};
ghost use Rattle.im_check_texts.specs.im_rules.Statements.{initialised_strings};
ghost use Rattle.im_ctree_parts.specs.Lists.{initializers_from};
ghost use Rattle.im_types.specs.Shape.{type_of};
ghost use Rattle.im_check_texts.specs.Texts.{texts_in};

use crate::expression::append_expression;
use crate::member_type;
use im_check_shapes::is_string_for;
use im_ctree::Initializer;
use im_ctype::TypeTable;
use im_num::NoMemory;
use im_types::Type;
use std::alloc::Global;

/// Appends the string literals of an initialiser of an object of that type, but for those that
/// initialise arrays.
#[cycle(given)]
pub fn append_given(
    alloc: Global,
    table: &TypeTable,
    ty: &Type,
    i: &Initializer,
    texts: &mut Vec<Vec<u8>>,
) -> Result<(), NoMemory>
    ensures { OnOk result (texts_in texts.new.items ≡ texts_in texts.old.items
        ++ strings_given (structs_of table.now) (type_of ty.now) (initializer_of i.now)) }
{
    if is_string_for(ty, i) {
        return Ok(());
    }
    match i {
        Initializer::Value(e) => append_expression(alloc, e, texts),
        Initializer::List(_, items) => append_list(alloc, table, ty, items, texts),
    }
}

/// Appends those of what stands in the braces of an object of that type.
#[cycle(given)]
fn append_list(
    alloc: Global,
    table: &TypeTable,
    ty: &Type,
    items: &[Initializer],
    texts: &mut Vec<Vec<u8>>,
) -> Result<(), NoMemory>
    ensures { OnOk result (texts_in texts.new.items ≡ texts_in texts.old.items
        ++ strings_among (structs_of table.now) (slots_of (structs_of table.now) (type_of ty.now))
        (initializers_from items.now)) }
{
    match ty {
        Type::Array(element, _) => append_elements(alloc, table, element, items, texts),
        Type::Unsized(element) => append_elements(alloc, table, element, items, texts),
        Type::Struct(number) => append_members(alloc, table, *number, items, texts),
        Type::Void | Type::Integer(_) | Type::Pointer(_, _) | Type::Function(_, _) => {
            append_elements(alloc, table, ty, items, texts)
        }
    }
}

#[cycle(given)]
fn append_elements(
    alloc: Global,
    table: &TypeTable,
    element: &Type,
    items: &[Initializer],
    texts: &mut Vec<Vec<u8>>,
) -> Result<(), NoMemory>
    ensures { OnOk result (texts_in texts.new.items ≡ texts_in texts.old.items
        ++ strings_among (structs_of table.now) (side_by_side (type_of element.now))
        (initializers_from items.now)) }
{
    for i in items {
        append_given(alloc, table, element, i, texts)?;
    }
    Ok(())
}

#[cycle(given)]
fn append_members(
    alloc: Global,
    table: &TypeTable,
    number: u32,
    items: &[Initializer],
    texts: &mut Vec<Vec<u8>>,
) -> Result<(), NoMemory>
    ensures { OnOk result (texts_in texts.new.items ≡ texts_in texts.old.items
        ++ strings_among (structs_of table.now) (in_order (members_of (structs_of table.now) number))
        (initializers_from items.now)) }
{
    let mut index = 0;
    for i in items {
        let ty = member_type(alloc, table, number, index)?;
        append_given(alloc, table, &ty, i, texts)?;
        index += 1;
    }
    Ok(())
}

/// Appends those of an initialiser, if there is one.
pub fn append_given_if_any(
    alloc: Global,
    table: &TypeTable,
    ty: &Type,
    initializer: &Option<Initializer>,
    texts: &mut Vec<Vec<u8>>,
) -> Result<(), NoMemory>
    ensures { OnOk result (texts_in texts.new.items ≡ texts_in texts.old.items
        ++ initialised_strings (structs_of table.now) (type_of ty.now)
        (maybe_initializer_of initializer.now)) }
{
    match initializer {
        None => Ok(()),
        Some(i) => append_given(alloc, table, ty, i, texts),
    }
}
