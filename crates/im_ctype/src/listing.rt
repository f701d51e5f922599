ghost use Rattle.std.specs.Prelude.{◌≡◌, ◌+◌, ◌*◌, ◌<◌, ◌^◌, IfOk, OnOk};
ghost use Rattle.im_ctype.specs.Layout.{moved};
ghost use Rattle.im_ctype.specs.Pending.{AreFitting, IsFitting, IsStep, cells_of, cost_of};
ghost use Rattle.im_ctype.specs.Pending.{weight_of};
ghost use Rattle.im_ctype.specs.Table.{IsIn, layout_of};

use crate::cell::Cell;
use crate::node::{TypeId, TypeNode};
use crate::size::size_of;
use crate::table::TypeTable;
use im_num::{Kind, NoMemory};
use std::alloc::Global;

/// What is still to be listed of an object's cells.
#[derive(Clone, Copy, Debug)]
enum Pending {
    /// So many objects of a type, side by side from an offset on.
    Objects { ty: TypeId, at: u64, count: u32 },
    /// The members of a struct that lies at an offset, from one of them on.
    Members { number: u32, from: usize, at: u64 },
}

/// The cells of an object of this type, in order (C11 6.2.5, 6.7.2.1).
pub fn cells(alloc: Global, ty: TypeId, table: &TypeTable) -> Result<Vec<Cell>, NoMemory>
    requires known { IsIn table.now ty }
    requires held { (layout_of table.now ty).size < 2 ^ 64 }
    ensures { IfOk result (λ cells. cells.items ≡ (layout_of table.now ty).cells) }
{
    let mut found = Vec::new(alloc);
    let mut pending = Vec::new(alloc);
    pending.push(Pending::Objects {
        ty,
        at: 0,
        count: 1,
    })?;
    while let Some(next) = pending.pop() {
        take_up(next, table, &mut pending, &mut found)?;
    }
    Ok(found)
}

fn take_up(
    next: Pending,
    table: &TypeTable,
    pending: &mut Vec<Pending>,
    found: &mut Vec<Cell>,
) -> Result<(), NoMemory>
    requires next_fits { IsFitting table.now next }
    requires fit { AreFitting table.now pending.old.items }
    ensures { OnOk result (IsStep table.now (cells_of table.now next) (cost_of table.now next)
        pending.old.items pending.new.items found.old.items found.new.items) }
{
    match next {
        Pending::Objects { ty, at, count } => {
            if count == 0 {
                return Ok(());
            }
            pending.push(Pending::Objects {
                ty,
                at: at + size_of(ty, table),
                count: count - 1,
            })?;
            take_up_object(ty, at, table, pending, found)
        }
        Pending::Members { number, from, at } => take_up_member(number, from, at, table, pending),
    }
}

/// One object of a type, which lies at an offset.
fn take_up_object(
    ty: TypeId,
    at: u64,
    table: &TypeTable,
    pending: &mut Vec<Pending>,
    found: &mut Vec<Cell>,
) -> Result<(), NoMemory>
    requires known { IsIn table.now ty }
    requires held { at + (layout_of table.now ty).size < 2 ^ 64 }
    requires fit { AreFitting table.now pending.old.items }
    ensures { OnOk result (IsStep table.now (moved at (layout_of table.now ty).cells)
        (1 + weight_of table.now ty) pending.old.items pending.new.items found.old.items
        found.new.items) }
{
    match table.node(ty) {
        TypeNode::Void => {}
        TypeNode::Integer(integer) => found.push(Cell {
            offset: at,
            kind: integer.kind(),
        })?,
        TypeNode::Pointer { .. } => found.push(Cell {
            offset: at,
            kind: Kind::Ptr,
        })?,
        TypeNode::Array { element, count } => pending.push(Pending::Objects {
            ty: element,
            at,
            count,
        })?,
        TypeNode::Struct(number) => pending.push(Pending::Members {
            number,
            from: 0,
            at,
        })?,
    }
    Ok(())
}

/// The members of a struct that lies at an offset, from that one on.
fn take_up_member(
    number: u32,
    from: usize,
    at: u64,
    table: &TypeTable,
    pending: &mut Vec<Pending>,
) -> Result<(), NoMemory>
    requires next_fits { IsFitting table.now (Pending.Members number from at) }
    requires fit { AreFitting table.now pending.old.items }
    ensures { (found : _) → OnOk result (IsStep table.now
        (cells_of table.now (Pending.Members number from at))
        (cost_of table.now (Pending.Members number from at)) pending.old.items pending.new.items
        found found) }
{
    let members = table.members(number);
    let places = table.places(number);
    if from < members.len() {
        pending.push(Pending::Members {
            number,
            from: from + 1,
            at,
        })?;
        pending.push(Pending::Objects {
            ty: members[from].ty,
            at: at + places[from].offset,
            count: 1,
        })?;
    }
    Ok(())
}
