//! Members whose types stand in a table.
ghost use Rattle.std.specs.Prelude.{IfOk};
ghost use Rattle.im_ctype.specs.Table.{IsGrown};
ghost use Rattle.im_check_place.specs.Fields.{field_of, fields_of};
ghost use Rattle.im_check_place.specs.Entered.{AreEntered, IsEntered};

use crate::field::Field;
use im_ctype::{Member, TypeTable, is_complete};
use im_num::{NoMemory, beyond_memory};
use im_types::id_of;
use std::alloc::Global;

/// A member with its type in the table. One of no complete object type is answered by want of
/// memory.
fn entered_one(alloc: Global, table: &mut TypeTable, field: &Field) -> Result<Member, NoMemory>
    ensures member { IfOk result (IsEntered table.new (field_of field.now)) }
    ensures grown { IsGrown table.old table.new }
{
    let ty = id_of(table, &field.ty)?;
    if !is_complete(ty, table) {
        return Err(beyond_memory());
    }
    let name = Vec::from_slice(alloc, &field.name)?;
    Ok(Member {
        name,
        constant: field.constant,
        ty,
    })
}

/// Members in their order, with their types in the table, to which these are added.
pub(crate) fn entered(
    alloc: Global,
    table: &mut TypeTable,
    fields: &[Field],
) -> Result<Vec<Member>, NoMemory>
    ensures members { IfOk result (λ ms. AreEntered table.new (fields_of fields.now) ms.items) }
    ensures grown { IsGrown table.old table.new }
{
    let mut members = Vec::new(alloc);
    for field in fields {
        let member = entered_one(alloc, table, field)?;
        members.push(member)?;
    }
    Ok(members)
}
