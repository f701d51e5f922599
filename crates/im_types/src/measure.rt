//! How much an object of a type takes.
ghost use Rattle.std.specs.Prelude.{◌≡◌, ◌+◌, ◌*◌, max, IfOk};
ghost use Rattle.im_ctype.specs.Types.{struct};
ghost use Rattle.im_ctype.specs.Kept.{extent_of};
ghost use Rattle.im_ctype.specs.Layout as l;
ghost use Rattle.im_ctype.specs.Layout.{layout};
ghost use Rattle.im_ctype.specs.Table.{structs_of};
ghost use Rattle.im_types.specs.Shape.{type_of};

use crate::tree::Type;
use im_ctype::{Extent, TypeTable, bytes_of_kind};
use im_num::{NoMemory, beyond_memory};

fn sum(first: u64, second: u64) -> Result<u64, NoMemory>
    ensures { IfOk result (λ n. n ≡ first + second) }
{
    match first.checked_add(second) {
        Some(n) => Ok(n),
        None => Err(beyond_memory()),
    }
}

fn product(first: u64, second: u64) -> Result<u64, NoMemory>
    ensures { IfOk result (λ n. n ≡ first * second) }
{
    match first.checked_mul(second) {
        Some(n) => Ok(n),
        None => Err(beyond_memory()),
    }
}

/// The least multiple of the alignment that is not below the offset.
fn round_up(offset: u64, alignment: u64) -> Result<u64, NoMemory>
    ensures { IfOk result (λ n. n ≡ l.round_up offset alignment) }
{
    if alignment == 0 {
        return Err(beyond_memory());
    }
    sum(offset, (alignment - offset % alignment) % alignment)
}

/// The extent of members with one more behind them (C11 6.7.2.1p15).
fn with_member(so_far: Extent, part: Extent) -> Result<Extent, NoMemory>
    ensures { IfOk result (λ e. e ≡ record {
      size = l.round_up so_far.size part.alignment + part.size;
      alignment = max so_far.alignment part.alignment;
      cells = so_far.cells + part.cells;
    }) }
{
    let offset = round_up(so_far.size, part.alignment)?;
    let size = sum(offset, part.size)?;
    let cells = sum(so_far.cells, part.cells)?;
    Ok(Extent {
        size,
        alignment: so_far.alignment.max(part.alignment),
        cells,
    })
}

/// The extent of a struct of these members: bytes follow them so that structs lie aligned side by
/// side.
fn with_trailing_bytes(all: Extent) -> Result<Extent, NoMemory>
    ensures { IfOk result (λ e. e ≡ record {
      size = l.round_up all.size all.alignment;
      alignment = all.alignment;
      cells = all.cells;
    }) }
{
    let size = round_up(all.size, all.alignment)?;
    Ok(Extent {
        size,
        alignment: all.alignment,
        cells: all.cells,
    })
}

/// The extent of a struct, by its number; nothing of one that has no member list. Want of memory
/// where it is no number of 64 bits.
pub fn struct_extent(table: &TypeTable, number: u32) -> Result<Extent, NoMemory>
    ensures { IfOk result (λ e. e ≡ extent_of (layout (structs_of table.now) (struct number))) }
{
    let mut so_far = Extent {
        size: 0,
        alignment: 1,
        cells: 0,
    };
    for member in table.members(number) {
        let part = table.extent(member.ty);
        let next = with_member(so_far, part)?;
        so_far = next;
    }
    with_trailing_bytes(so_far)
}

/// The bytes of an object of this type (C11 6.5.3.4); 0 of what is no object type. Want of memory
/// where it is no number of 64 bits.
pub fn size(table: &TypeTable, ty: &Type) -> Result<u64, NoMemory>
    ensures { IfOk result (λ n. n ≡ (layout (structs_of table.now) (type_of ty.now)).size) }
{
    match ty {
        Type::Void | Type::Unsized(_) | Type::Function(_, _) => Ok(0),
        Type::Integer(i) => Ok(bytes_of_kind(i.kind())),
        Type::Pointer(_, _) => Ok(4),
        Type::Array(element, count) => {
            let each = size(table, element)?;
            product(*count, each)
        }
        Type::Struct(number) => {
            let extent = struct_extent(table, *number)?;
            Ok(extent.size)
        }
    }
}
