//! How many cells an object has.
ghost use Rattle.std.specs.Prelude.{◌≡◌, ◌*◌, length, IfOk};
ghost use Rattle.im_ctype.specs.Layout.{layout};
ghost use Rattle.im_ctype.specs.Table.{structs_of};
ghost use Rattle.im_types.specs.Shape.{type_of};

use im_ctype::TypeTable;
use im_num::{NoMemory, beyond_memory};
use im_types::{Type, struct_extent};

fn product(first: u64, second: u64) -> Result<u64, NoMemory>
    ensures { IfOk result (λ n. n ≡ first * second) }
{
    match first.checked_mul(second) {
        Some(n) => Ok(n),
        None => Err(beyond_memory()),
    }
}

/// The number, where it is one of 32 bits; else want of memory.
pub(crate) fn narrow(count: u64) -> Result<u32, NoMemory>
    ensures { IfOk result (λ n. n ≡ count) }
{
    match u32::try_from(count) {
        Ok(n) => Ok(n),
        Err(_) => Err(beyond_memory()),
    }
}

/// The cells of an object of that type, counted; none of what is no object type. Want of memory
/// where it is no number of 64 bits.
pub(crate) fn cell_count(table: &TypeTable, ty: &Type) -> Result<u64, NoMemory>
    ensures { IfOk result
        (λ n. n ≡ length (layout (structs_of table.now) (type_of ty.now)).cells) }
{
    match ty {
        Type::Void | Type::Unsized(_) | Type::Function(_, _) => Ok(0),
        Type::Integer(_) | Type::Pointer(_, _) => Ok(1),
        Type::Array(element, count) => {
            let each = cell_count(table, element)?;
            product(*count, each)
        }
        Type::Struct(number) => {
            let extent = struct_extent(table, *number)?;
            Ok(extent.cells)
        }
    }
}
