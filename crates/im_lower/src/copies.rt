ghost use Rattle.std.specs.Prelude.{◌≡◌, ◌≤◌, ◌+◌, ◌*◌, IfOk, OnOk, length, slice_get};
ghost use Rattle.im_num.specs.Kinds.{kind_size};
ghost use Rattle.im_ctype.specs.Table.{Table};
ghost use Rattle.im_typed.specs.Meaning.{is_read};
ghost use Rattle.im_typed.specs.ProgramOf.{expr_of, place_of, program_of};
ghost use Rattle.im_typed.specs.Values.{extent};
ghost use Rattle.im_lower_relation.specs.Codes.{all_objects, fills, fills_object, in_groups};
ghost use Rattle.im_lower_relation.specs.Codes.{is_whole, object_size, static_size};
ghost use Rattle.im_lower_plain.specs.Make.{groups_in, put_copy, put_group, put_groups};

use crate::builder::{Builder, next, sum};
use crate::lines::{put_reads, put_writes};
use im_block::Line;
use im_ctype::{Cell, bytes_of_kind};
use im_num::{NoMemory, beyond_memory};
use im_typed::{Expr, Place, Prog};

/// How many groups of 8 cells a struct is copied in, besides one of those that are left: none but
/// this one where the value may overlap the place in part.
pub(crate) fn groups_in(
    place: &Place,
    value: &Expr,
    cells: &[Cell],
    prog: &Prog,
    first: u32,
) -> Result<usize, NoMemory>
    ensures gives { IfOk result (λ n. n ≡ groups_in (in_groups (program_of prog.now) first
        (place_of prog.now.types place.now) cells.now (expr_of prog.now.types value.now))
        cells.now) }
    ensures few { IfOk result (λ n. 8 * n ≤ length cells.now) }
{
    let allowed = is_read(value) || is_whole(place, cells, prog, first)?;
    Ok(groups_where(allowed, cells))
}

/// How many groups of 8 cells a struct of an initialiser is copied in, besides one of those that
/// are left: none but this one where it doesn't fill its object.
pub(crate) fn groups_of_piece(object: u32, cells: &[Cell], prog: &Prog) -> Result<usize, NoMemory>
    ensures gives { IfOk result (λ n. n ≡ groups_in
        (fills_object (program_of prog.now) object cells.now) cells.now) }
    ensures few { IfOk result (λ n. 8 * n ≤ length cells.now) }
{
    let allowed = fills_object(object, cells, prog)?;
    Ok(groups_where(allowed, cells))
}

/// How many groups of 8 cells there are, where a struct is copied in groups.
fn groups_where(allowed: bool, cells: &[Cell]) -> usize
    ensures gives { result ≡ groups_in allowed cells.now }
    ensures few { 8 * result ≤ length cells.now }
{
    if allowed { cells.len() / 8 } else { 0 }
}

/// Whether a value is directly read from a place: an assignment reads it from its target, or from
/// one that shares no byte with it (C11 6.5.16.1p3).
fn is_read(value: &Expr) -> bool
    ensures { (types : Table) → result ≡ is_read (expr_of types value.now) }
{
    match value {
        Expr::Read(_, _) => true,
        _ => false,
    }
}

/// Whether a place is an object that ends where a struct of these cells does.
fn is_whole(place: &Place, cells: &[Cell], prog: &Prog, first: u32) -> Result<bool, NoMemory>
    ensures { IfOk result (λ whole. whole ≡ is_whole (program_of prog.now) first
        (place_of prog.now.types place.now) cells.now) }
{
    match place {
        Place::Static(number) => fills(static_size(prog, *number), cells),
        Place::Local(local) => fills_object(sum(first, *local)?, cells, prog),
        Place::Target(_) | Place::Member(_, _) => Ok(false),
    }
}

/// Whether an object of a function, by its number in the unit, ends where a struct of these cells
/// does.
fn fills_object(object: u32, cells: &[Cell], prog: &Prog) -> Result<bool, NoMemory>
    ensures { IfOk result (λ same. same ≡ fills_object (program_of prog.now) object cells.now) }
{
    let number = (object as usize).saturating_sub(prog.statics.len());
    fills(object_size(prog, number), cells)
}

/// Whether an object of so many bytes ends where a struct of these cells does.
fn fills(size: Option<u32>, cells: &[Cell]) -> Result<bool, NoMemory>
    ensures { IfOk result (λ same. same ≡ fills size cells.now) }
{
    match size {
        Some(size) => Ok(size as u64 == extent(cells)?),
        None => Ok(false),
    }
}

/// The bytes of a static.
fn static_size(prog: &Prog, number: u32) -> Option<u32>
    ensures { result ≡ static_size (slice_get (program_of prog.now).statics number) }
{
    match prog.statics.get(number as usize) {
        Some(found) => Some(found.object.size),
        None => None,
    }
}

/// The bytes of an object of a function, by its number among those of all functions.
fn object_size(prog: &Prog, number: usize) -> Option<u32>
    ensures { result
        ≡ object_size (slice_get (all_objects (program_of prog.now).funcs) number) }
{
    let mut left = number;
    for func in &prog.funcs {
        if left < func.objects.len() {
            return Some(func.objects[left].size);
        }
        left -= func.objects.len();
    }
    None
}

/// The bytes from a struct's start to the end of its cells.
fn extent(cells: &[Cell]) -> Result<u64, NoMemory>
    ensures { IfOk result (λ n. n ≡ extent cells.now) }
{
    let mut end = 0;
    for cell in cells {
        end = end_of(*cell)?.max(end);
    }
    Ok(end)
}

/// Where a cell ends, in bytes from its struct's start.
fn end_of(cell: Cell) -> Result<u64, NoMemory>
    ensures { IfOk result (λ n. n ≡ cell.offset + kind_size cell.kind) }
{
    match cell.offset.checked_add(bytes_of_kind(cell.kind)) {
        Some(end) => Ok(end),
        None => Err(beyond_memory()),
    }
}

/// Puts the copy of a struct from the place in the register `pointer`. Its value is the address of
/// the place.
pub(crate) fn put_copy(
    code: &mut Builder,
    to: u32,
    pointer: u32,
    place: im_block::Place,
    groups: usize,
    cells: &[Cell],
) -> Result<(), NoMemory>
    requires { 8 * groups ≤ length cells.now }
    ensures { OnOk result (code.new ≡ put_copy to pointer place groups cells.now code.old) }
{
    code.put(Line::Address { to, place })?;
    put_groups(code, pointer, place, groups, cells)
}

/// Puts the copies of so many groups of 8 cells, one after the other, and of those that are left.
pub(crate) fn put_groups(
    code: &mut Builder,
    pointer: u32,
    place: im_block::Place,
    groups: usize,
    cells: &[Cell],
) -> Result<(), NoMemory>
    requires { 8 * groups ≤ length cells.now }
    ensures { OnOk result (code.new ≡ put_groups pointer place groups cells.now code.old) }
{
    put_group(code, pointer, place, &cells[8 * groups..])?;
    for group in (0..groups).rev() {
        put_group(code, pointer, place, &cells[8 * group..8 * group + 8])?;
    }
    Ok(())
}

/// Puts the copy of a group of cells: all are read before the first is written.
fn put_group(
    code: &mut Builder,
    pointer: u32,
    place: im_block::Place,
    cells: &[Cell],
) -> Result<(), NoMemory>
    ensures { OnOk result (code.new ≡ put_group pointer place cells.now code.old) }
{
    let from = next(pointer)?;
    put_writes(code, place, from, cells)?;
    put_reads(code, pointer, from, cells)
}
