//! The cells of an object of a type (C11 6.2.5, 6.7.2.1).
ghost use Rattle.std.specs.Prelude.{◌≡◌, ℕ, ◌+◌, ◌++◌, ◌∷◌, [], IfOk, OnOk};
ghost use Rattle.im_ctype.specs.Layout as l;
ghost use Rattle.im_ctype.specs.Table.{structs_of};
ghost use Rattle.im_types.specs.Shape.{type_of};

use im_ctype::{Cell, TypeTable, cells_of_struct};
use im_num::{Kind, NoMemory, beyond_memory};
use im_types::{Type, size};
use std::alloc::Global;

fn past(at: u64, bytes: u64) -> Result<u64, NoMemory>
    ensures { IfOk result (λ n. n ≡ at + bytes) }
{
    match at.checked_add(bytes) {
        Some(end) => Ok(end),
        None => Err(beyond_memory()),
    }
}

/// Puts these cells, so many bytes further on, behind the others.
fn push_moved(by: u64, part: &[Cell], done: &mut Vec<Cell>) -> Result<(), NoMemory>
    ensures { OnOk result (done.new.items ≡ done.old.items ++ l.moved by part.now) }
{
    for cell in part {
        done.push(Cell {
            offset: past(by, cell.offset)?,
            kind: cell.kind,
        })?;
    }
    Ok(())
}

fn one_cell(alloc: Global, kind: Kind) -> Result<Vec<Cell>, NoMemory>
    ensures { IfOk result (λ done. done.items ≡ (l.scalar_layout kind).cells) }
{
    let mut done = Vec::new(alloc);
    done.push(Cell { offset: 0, kind })?;
    Ok(done)
}

/// The cells of so many elements side by side, by those of one, which has so many bytes.
fn repeated(alloc: Global, part: &[Cell], bytes: u64, count: u64) -> Result<Vec<Cell>, NoMemory>
    ensures { (align : ℕ) → IfOk result (λ done. done.items
        ≡ l.repeated 0 count (record { size = bytes; align = align; cells = part.now })) }
{
    let mut done = Vec::new(alloc);
    let mut at = 0;
    for _element in 0..count {
        push_moved(at, part, &mut done)?;
        at = past(at, bytes)?;
    }
    Ok(done)
}

/// The cells of an object of that type, in order; none of what is no object type. Want of memory
/// where an offset is no number of 64 bits.
pub fn cells_of(alloc: Global, table: &TypeTable, ty: &Type) -> Result<Vec<Cell>, NoMemory>
    ensures { IfOk result (λ done. done.items
        ≡ (l.layout (structs_of table.now) (type_of ty.now)).cells) }
{
    match ty {
        Type::Void | Type::Unsized(_) | Type::Function(_, _) => Ok(Vec::new(alloc)),
        Type::Integer(i) => one_cell(alloc, i.kind()),
        Type::Pointer(_, _) => one_cell(alloc, Kind::Ptr),
        Type::Array(element, count) => {
            let part = cells_of(alloc, table, element)?;
            let bytes = size(table, element)?;
            repeated(alloc, &part, bytes, *count)
        }
        Type::Struct(number) => cells_of_struct(alloc, *number, table),
    }
}
