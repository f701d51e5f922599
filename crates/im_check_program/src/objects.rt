//! Objects with their types in a table.
ghost use Rattle.std.specs.Prelude.{◌≡◌, ◌++◌, map, IfOk, OnOk};
ghost use Rattle.im_ctype.specs.Table.{IsGrown, structs_of};
ghost use Rattle.im_check_defined.specs.im_rules.Statements as s;
ghost use Rattle.im_typed.specs.ProgramOf.{object_of};
ghost use Rattle.im_check_sites.specs.Sites.{object_in, objects_in};
ghost use Rattle.im_types.specs.Shape.{type_of};
ghost use Rattle.im_check_program.specs.Known.{IsObjectOf, KnowObjects};

use im_check_sites::Local;
use im_ctype::TypeTable;
use im_num::{NoMemory, beyond_memory};
use im_typed::Object;
use im_types::{Type, id_of, size};
use std::alloc::Global;

/// An object of that type, which is added to the table. One of 2^32 bytes or more is answered by
/// want of memory.
pub(crate) fn typed_object(
    table: &mut TypeTable,
    name: Vec<u8>,
    ty: &Type,
) -> Result<Object, NoMemory>
    ensures object { IfOk result (IsObjectOf table.new
        (s.object_of (structs_of table.old) name.items (type_of ty.now))) }
    ensures grown { OnOk result (IsGrown table.old table.new) }
{
    let bytes = size(table, ty)?;
    let number = id_of(table, ty)?;
    match u32::try_from(bytes) {
        Ok(size) => Ok(Object {
            name,
            ty: number,
            size,
        }),
        Err(_) => Err(beyond_memory()),
    }
}

/// An object of a function.
fn typed_local(table: &mut TypeTable, object: Local) -> Result<Object, NoMemory>
    ensures object { IfOk result (IsObjectOf table.new (object_in table.old object)) }
    ensures grown { OnOk result (IsGrown table.old table.new) }
{
    let Local { name, ty } = object;
    typed_object(table, name, &ty)
}

/// The objects of a function, in their order.
pub(crate) fn typed_objects(
    alloc: Global,
    table: &mut TypeTable,
    objects: Vec<Local>,
) -> Result<Vec<Object>, NoMemory>
    ensures same { IfOk result (λ v. map (object_of table.new) v.items
        ≡ objects_in table.old objects.items) }
    ensures known { IfOk result (λ v. KnowObjects table.new v.items) }
    ensures grown { OnOk result (IsGrown table.old table.new) }
{
    let mut done = Vec::new(alloc);
    for object in objects {
        let one = typed_local(table, object)?;
        done.push(one)?;
    }
    Ok(done)
}
