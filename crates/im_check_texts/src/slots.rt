//! The types of the members of a struct, by their places in its list.
ghost use Rattle.std.specs.Prelude.{◌≡◌, drop, IfOk};
ghost use Rattle.im_ctype.specs.Table.{structs_of};
ghost use Rattle.im_ctype.specs.Types.{members_of};
ghost use Rattle.im_check_shapes.specs.im_rules.Initialisers.{first_slot, in_order};
ghost use Rattle.im_types.specs.Shape.{type_of};

use im_ctype::TypeTable;
use im_num::NoMemory;
use im_types::{Type, type_from};
use std::alloc::Global;

/// The type of the member at that place; void past the members.
pub fn member_type(
    alloc: Global,
    table: &TypeTable,
    number: u32,
    index: usize,
) -> Result<Type, NoMemory>
    ensures { IfOk result (λ t. type_of t
        ≡ first_slot (in_order (drop index (members_of (structs_of table.now) number)))) }
{
    let members = table.members(number);
    match members.get(index) {
        Some(member) => type_from(alloc, table, member.ty),
        None => Ok(Type::Void),
    }
}
