ghost use Rattle.std.specs.Prelude.{◌≡◌, ◌++◌, ◌+◌, ◌<◌, ◌^◌, IfOk, OnOk};
ghost use Rattle.std.specs.List.{All};
ghost use Rattle.im_ctype.specs.declared.cell.Cell.{Cell};
ghost use Rattle.im_ctype.specs.Layout.{layout_at, layouts, moved};
ghost use Rattle.im_ctype.specs.Table.{structs_of};

use crate::cell::Cell;
use crate::laws::member_law;
use crate::listing::cells;
use crate::size::size_of;
use crate::table::TypeTable;
use im_num::NoMemory;
use std::alloc::Global;

/// The cells of a struct of the table, in order: those of its members, each at its place
/// (C11 6.7.2.1).
pub fn cells_of_struct(alloc: Global, number: u32, types: &TypeTable) -> Result<Vec<Cell>, NoMemory>
    ensures { IfOk result (λ found. found.items
        ≡ (layout_at (layouts (structs_of types.now)) number).cells) }
{
    member_law();
    // The struct's size is a number of 64 bits, so each offset within it is one.
    let _extent = types.struct_extent(number);
    let mut found = Vec::new(alloc);
    let members = types.members(number);
    let places = types.places(number);
    for (index, member) in members.iter().enumerate() {
        if index >= places.len() {
            return Ok(found);
        }
        let _size = size_of(member.ty, types);
        let part = cells(alloc, member.ty, types)?;
        push_moved(&mut found, places[index].offset, &part)?;
    }
    Ok(found)
}

/// Cells of a member, so many bytes further on.
fn push_moved(found: &mut Vec<Cell>, by: u64, cells: &[Cell]) -> Result<(), NoMemory>
    requires { All (λ (c : Cell). by + c.offset < 2 ^ 64) cells.now }
    ensures { OnOk result (found.new.items ≡ found.old.items ++ moved by cells.now) }
{
    for cell in cells {
        found.push(Cell {
            offset: by + cell.offset,
            kind: cell.kind,
        })?;
    }
    Ok(())
}
