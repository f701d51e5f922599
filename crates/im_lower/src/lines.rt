ghost use Rattle.std.specs.Prelude.{◌≡◌, ◌+◌, IfOk, OnOk};
ghost use Rattle.im_typed.specs.ProgramOf.{access_of};
ghost use Rattle.im_ctype.specs.Table.{Table};
ghost use Rattle.im_lower_plain.specs.Make.{put_change, put_increment, put_load, put_reads};
ghost use Rattle.im_lower_plain.specs.Make.{put_writes};

use crate::builder::{Builder, sum};
use crate::places::{changed_kind, further_in};
use im_block::{Line, Place};
use im_ctype::Cell;
use im_num::{Kind, NoMemory, beyond_memory};
use im_typed::{Access, Change};

/// Puts the read of a cell, or a struct's address.
pub(crate) fn put_load(
    code: &mut Builder,
    access: Access,
    to: u32,
    place: Place,
) -> Result<(), NoMemory>
    ensures { (types : Table) → OnOk result (code.new
        ≡ put_load (access_of types access) to place code.old) }
{
    match access {
        Access::Scalar(kind) => code.put_read(to, place, kind),
        Access::Struct { .. } => code.put(Line::Address { to, place }),
    }
}

/// Puts reads of the cells behind a pointer, into the registers from `to` on.
pub(crate) fn put_reads(
    code: &mut Builder,
    pointer: u32,
    to: u32,
    cells: &[Cell],
) -> Result<(), NoMemory>
    ensures { OnOk result (code.new ≡ put_reads pointer to cells.now code.old) }
{
    for index in (0..cells.len()).rev() {
        let cell = cells[index];
        let place = Place::Through {
            pointer,
            offset: small(cell.offset)?,
        };
        code.put_read(register_at(to, index)?, place, cell.kind)?;
    }
    Ok(())
}

/// Puts writes of the registers from `from` on into the cells at a place.
pub(crate) fn put_writes(
    code: &mut Builder,
    place: Place,
    from: u32,
    cells: &[Cell],
) -> Result<(), NoMemory>
    ensures { OnOk result (code.new ≡ put_writes place from cells.now code.old) }
{
    for index in (0..cells.len()).rev() {
        let cell = cells[index];
        let target = further_in(place, small(cell.offset)?)?;
        code.put_write(target, cell.kind, register_at(from, index)?)?;
    }
    Ok(())
}

/// An offset in an object as a place has it.
pub(crate) fn small(offset: u64) -> Result<u32, NoMemory>
    ensures { IfOk result (λ n. n ≡ offset) }
{
    u32::try_from(offset).map_err(|_| beyond_memory())
}

/// The register that is so many behind one.
pub(crate) fn register_at(from: u32, index: usize) -> Result<u32, NoMemory>
    ensures { IfOk result (λ n. n ≡ from + index) }
{
    sum(from, small(index as u64)?)
}

/// Puts the lines that make the new value in `to` of the old one and the one in `by`, and store it.
pub(crate) fn put_change(
    code: &mut Builder,
    change: Change,
    to: u32,
    old: u32,
    by: u32,
    place: Place,
) -> Result<(), NoMemory>
    ensures { OnOk result (code.new ≡ put_change change to old by place code.old) }
{
    match change {
        Change::Number { kind, op, at } => {
            code.put_write(place, kind, to)?;
            code.put(Line::Convert { to, kind, from: to })?;
            code.put(Line::Compute {
                to,
                op,
                kind: at,
                left: old,
                right: by,
            })
        }
        Change::Move { size, back } => {
            code.put_write(place, Kind::Ptr, to)?;
            code.put(Line::Move {
                to,
                size,
                back,
                pointer: old,
                by,
            })
        }
    }
}

/// Puts the lines of a change by 1, whose value is the old one where `keeps` says so.
pub(crate) fn put_increment(
    code: &mut Builder,
    change: Change,
    keeps: bool,
    to: u32,
    beside: u32,
    place: Place,
) -> Result<(), NoMemory>
    ensures { OnOk result (code.new ≡ put_increment change keeps to beside place code.old) }
{
    let changed = if keeps { beside } else { to };
    put_change(code, change, changed, to, beside, place)?;
    code.put(Line::Put {
        to: beside,
        number: 1,
    })?;
    code.put_read(to, place, changed_kind(change))
}
