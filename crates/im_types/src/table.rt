//! Types from a table and into one.
ghost use Rattle.std.specs.Prelude.{◌≡◌, IfOk};
ghost use Rattle.im_ctype.specs.Table.{IsIn, IsGrown, IsTypeOf, type_at};
ghost use Rattle.im_ctype.specs.Types.{array};
ghost use Rattle.im_types.specs.Shape.{type_of};

use crate::build::{array_of, pointer_to};
use crate::tree::Type;
use im_ctype::{TypeId, TypeNode, TypeTable, is_complete, size_of};
use im_num::{NoMemory, beyond_memory};
use std::alloc::Global;

/// A type of the table.
pub fn type_from(alloc: Global, table: &TypeTable, ty: TypeId) -> Result<Type, NoMemory>
    requires { IsIn table.now ty }
    ensures { IfOk result (λ t. type_of t ≡ type_at table.now ty) }
{
    match table.node(ty) {
        TypeNode::Void => Ok(Type::Void),
        TypeNode::Integer(i) => Ok(Type::Integer(i)),
        TypeNode::Pointer { constant, target } => {
            let to = type_from(alloc, table, target)?;
            pointer_to(alloc, constant, to)
        }
        TypeNode::Array { element, count } => {
            let each = type_from(alloc, table, element)?;
            array_of(alloc, each, count as u64)
        }
        TypeNode::Struct(number) => Ok(Type::Struct(number)),
    }
}

/// An array type in the table. Its element is to be complete and its bytes a number of 64 bits,
/// else it is answered by want of memory.
fn array_in(table: &mut TypeTable, element: TypeId, count: u64) -> Result<TypeId, NoMemory>
    requires { IsIn table.old element }
    ensures type_is { IfOk result (IsTypeOf table.new (array (type_at table.old element) count)) }
    ensures grown { IsGrown table.old table.new }
{
    let Ok(elements) = u32::try_from(count) else {
        return Err(beyond_memory());
    };
    if elements == 0 || !is_complete(element, table) {
        return Err(beyond_memory());
    }
    if size_of(element, table).checked_mul(count).is_none() {
        return Err(beyond_memory());
    }
    table.array(element, elements)
}

/// The number of an object type, which is added where the table doesn't have it. No object's type
/// is a function or holds an array of no written length: these are answered by want of memory.
pub fn id_of(table: &mut TypeTable, ty: &Type) -> Result<TypeId, NoMemory>
    ensures type_is { IfOk result (IsTypeOf table.new (type_of ty.now)) }
    ensures grown { IsGrown table.old table.new }
{
    match ty {
        Type::Void => table.void(),
        Type::Integer(i) => table.integer(*i),
        Type::Pointer(constant, target) => {
            let to = id_of(table, target)?;
            table.pointer(*constant, to)
        }
        Type::Array(element, count) => {
            let each = id_of(table, element)?;
            array_in(table, each, *count)
        }
        Type::Struct(number) => table.structure(*number),
        Type::Unsized(_) | Type::Function(_, _) => Err(beyond_memory()),
    }
}
