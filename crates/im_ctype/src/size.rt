ghost use Rattle.std.specs.Prelude.{◌≡◌, length};
ghost use Rattle.im_ctype.specs.Table.{IsIn, layout_of, type_at};
ghost use Rattle.im_ctype.specs.Types.{is_complete};

use crate::node::{TypeId, TypeNode};
use crate::table::TypeTable;

/// The bytes of an object of this type (C11 6.5.3.4); 0 of what is no complete object type.
pub fn size_of(ty: TypeId, table: &TypeTable) -> u64
    requires { IsIn table.now ty }
    ensures { result ≡ (layout_of table.now ty).size }
{
    table.extent(ty).size
}

/// The number of bytes of which each address of an object of this type is a multiple (C11 6.2.8).
pub fn align_of(ty: TypeId, table: &TypeTable) -> u64
    requires { IsIn table.now ty }
    ensures { result ≡ (layout_of table.now ty).align }
{
    table.extent(ty).alignment
}

/// How many cells an object of this type has.
pub fn cell_count(ty: TypeId, table: &TypeTable) -> u64
    requires { IsIn table.now ty }
    ensures { result ≡ length (layout_of table.now ty).cells }
{
    table.extent(ty).cells
}

/// Whether it is a complete object type (C11 6.2.5p1, p22).
pub fn is_complete(ty: TypeId, table: &TypeTable) -> bool
    requires { IsIn table.now ty }
    ensures { result ≡ is_complete (length table.now.structs) (type_at table.now ty) }
{
    match table.node(ty) {
        TypeNode::Void => false,
        TypeNode::Integer(_) | TypeNode::Pointer { .. } | TypeNode::Array { .. } => true,
        TypeNode::Struct(number) => (number as usize) < table.struct_count(),
    }
}
