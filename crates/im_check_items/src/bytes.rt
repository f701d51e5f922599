//! The bytes of a string that initialises an array (C11 6.7.9p14).
ghost use Rattle.std.specs.Prelude.{◌≡◌, ◌+◌, ◌++◌, IfOk, OnOk};
ghost use Rattle.im_ctype.specs.Table.{Table};
ghost use Rattle.im_check_conversions.specs.im_rules.Initialisers as n;
ghost use Rattle.im_types.specs.Shape.{type_of};
ghost use Rattle.im_check_items.specs.Shape.{items_in};

use crate::item::{Item, Source};
use im_num::{NoMemory, beyond_memory};
use im_types::{Type, copy};
use std::alloc::Global;

/// Puts a string's bytes behind the items, from that offset on, for elements of that type. Want of
/// memory where an offset is no number of 64 bits; what the items are then is not told.
pub fn push_bytes<'a>(
    alloc: Global,
    offset: u64,
    ty: &Type,
    bytes: &[u8],
    items: &mut Vec<Item<'a>>,
) -> Result<(), NoMemory>
    ensures { (types : Table) → OnOk result (items_in types items.new.items
        ≡ items_in types items.old.items ++ n.byte_items offset (type_of ty.now) bytes.now) }
{
    let mut at = offset;
    for byte in bytes {
        let element = copy(alloc, ty)?;
        items.push(Item {
            offset: at,
            ty: element,
            source: Source::Byte(*byte),
        })?;
        at = past(at)?;
    }
    Ok(())
}

fn past(offset: u64) -> Result<u64, NoMemory>
    ensures { IfOk result (λ k. k ≡ offset + 1) }
{
    match offset.checked_add(1) {
        Some(next) => Ok(next),
        None => Err(beyond_memory()),
    }
}
