//! The members of a struct, by their places in its list.
ghost use Rattle.std.specs.Prelude.{◌≡◌, ◌<◌, ◌+◌, length, IfOk};
ghost use Rattle.im_ctype.specs.Table.{structs_of};
ghost use Rattle.im_ctype.specs.Types.{members_of};
ghost use Rattle.im_types.specs.Shape.{type_of};
ghost use Rattle.im_check_initialisers.specs.Forms.{IsMember};

use im_ctype::TypeTable;
use im_num::{NoMemory, beyond_memory};
use im_types::{Type, type_from};
use std::alloc::Global;

/// A member: its type, and how many bytes from its struct's start it lies.
#[derive(Drop)]
pub(crate) struct Placed {
    pub ty: Type,
    pub offset: u64,
}

/// The member at that place of its struct's list.
pub(crate) fn member_at(
    alloc: Global,
    table: &TypeTable,
    number: u32,
    index: usize,
) -> Result<Placed, NoMemory>
    requires { index < length (members_of (structs_of table.now) number) }
    ensures { IfOk result
        (λ m. IsMember (structs_of table.now) number index (type_of m.ty) m.offset) }
{
    let members = table.members(number);
    let places = table.places(number);
    let ty = type_from(alloc, table, members[index].ty)?;
    Ok(Placed {
        ty,
        offset: places[index].offset,
    })
}

/// So many bytes further on. Want of memory where that is no number of 64 bits.
pub(crate) fn further(at: u64, by: u64) -> Result<u64, NoMemory>
    ensures { IfOk result (λ k. k ≡ at + by) }
{
    match at.checked_add(by) {
        Some(k) => Ok(k),
        None => Err(beyond_memory()),
    }
}
