ghost use Rattle.std.specs.Prelude.{◌≡◌, ◌+◌, ◌++◌, IfOk, OnOk, map, slice_get, slice_set, true};
ghost use Rattle.im_ctype.specs.Table.{Table};
ghost use Rattle.im_typed.specs.Meaning.{given_offsets, is_among};
ghost use Rattle.im_typed.specs.ProgramOf.{access_of, expr_of, piece_of, program_of};
ghost use Rattle.im_lower_plain.specs.MakeStatement.{cell_offsets, cells_there, make_pieces};
ghost use Rattle.im_lower_plain.specs.MakeStatement.{offsets_of, put_piece, put_rest, put_zero};
ghost use Rattle.im_lower_relation.specs.Statements.{zero_line};
ghost use Rattle.im_lower.specs.Marks.{AreMarks};

use crate::builder::{Builder, sum};
use crate::copies::{groups_of_piece, put_groups};
use crate::expressions::{Base, lower_value};
use crate::lines::small;
use im_block::{Line, Object, Place};
use im_ctype::{Cell, cells_of_struct};
use im_num::{Kind, NoMemory, beyond_memory};
use im_typed::{Access, Piece, Prog};

/// Puts an initialiser: its expressions in order, and zero or null in the cells without one.
pub(crate) fn lower_initialiser(
    code: &mut Builder,
    local: u32,
    pieces: &[Piece],
    objects: &[Object],
    prog: &Prog,
    base: Base,
) -> Result<(), NoMemory>
    ensures { let ps = map (piece_of prog.now.types) pieces.now in OnOk result
        (code.new ≡ make_pieces (program_of prog.now) base.first base.low (base.first + local) ps
        (put_rest base.low (base.first + local) (given_offsets ps)
        (cells_there (slice_get objects.now local)) code.old)) }
{
    let object = sum(base.first, local)?;
    let given = given_offsets(code, pieces, prog)?;
    match objects.get(local as usize) {
        Some(found) => {
            let marks = marks_of(code, &given, found.size)?;
            put_rest(code, base.low, object, &given, &marks, &found.cells)?;
        }
        None => {}
    }
    lower_pieces(code, object, pieces, prog, base)
}

/// The offsets of the cells that expressions of an initialiser give.
fn given_offsets(code: &Builder, pieces: &[Piece], prog: &Prog) -> Result<Vec<u64>, NoMemory>
    ensures { IfOk result (λ found. found.items
        ≡ given_offsets (map (piece_of prog.now.types) pieces.now)) }
{
    let mut found = Vec::new(code.alloc());
    for piece in pieces {
        push_offsets(code, &mut found, piece.offset, piece.access, prog)?;
    }
    Ok(found)
}

/// The offsets of the cells that one expression gives.
fn push_offsets(
    code: &Builder,
    found: &mut Vec<u64>,
    offset: u32,
    access: Access,
    prog: &Prog,
) -> Result<(), NoMemory>
    ensures { OnOk result (found.new.items ≡ found.old.items
        ++ offsets_of offset (access_of prog.now.types access)) }
{
    match access {
        Access::Scalar(_) => Ok(found.push(offset as u64)?),
        Access::Struct { number, .. } => {
            let cells = cells_of_struct(code.alloc(), number, &prog.types)?;
            push_cell_offsets(found, offset, &cells)
        }
    }
}

fn push_cell_offsets(found: &mut Vec<u64>, offset: u32, cells: &[Cell]) -> Result<(), NoMemory>
    ensures { OnOk result (found.new.items ≡ found.old.items ++ cell_offsets offset cells.now) }
{
    for cell in cells {
        let Some(at) = (offset as u64).checked_add(cell.offset) else {
            return Err(beyond_memory());
        };
        found.push(at)?;
    }
    Ok(())
}

/// For each byte of an object, whether an expression of its initialiser gives a cell there.
fn marks_of(code: &Builder, given: &[u64], size: u32) -> Result<Vec<bool>, NoMemory>
    ensures { IfOk result (λ marks. AreMarks given.now marks.items) }
{
    let mut marks = Vec::new(code.alloc());
    for _ in 0..size {
        marks.push(false)?;
    }
    for at in given {
        mark(&mut marks, *at);
    }
    Ok(marks)
}

/// Marks a byte that is there.
fn mark(marks: &mut Vec<bool>, at: u64)
    ensures { marks.new.items ≡ slice_set marks.old.items at true }
{
    let index = at as usize;
    if index < marks.len() {
        marks[index] = true;
    }
}

/// Puts zero or null into the cells at offsets that aren't given.
fn put_rest(
    code: &mut Builder,
    low: u32,
    object: u32,
    given: &[u64],
    marks: &[bool],
    cells: &[Cell],
) -> Result<(), NoMemory>
    requires { AreMarks given.now marks.now }
    ensures { OnOk result (code.new ≡ put_rest low object given.now cells.now code.old) }
{
    for index in (0..cells.len()).rev() {
        let cell = cells[index];
        if !is_given(cell.offset, given, marks) {
            put_zero(code, low, object, cell)?;
        }
    }
    Ok(())
}

/// Whether a cell's offset is given. A cell of an object lies within its bytes.
fn is_given(offset: u64, given: &[u64], marks: &[bool]) -> bool
    requires { AreMarks given.now marks.now }
    ensures { result ≡ is_among offset given.now }
{
    let index = offset as usize;
    if index < marks.len() {
        marks[index]
    } else {
        is_among(offset, given)
    }
}

fn is_among(offset: u64, given: &[u64]) -> bool
    ensures { result ≡ is_among offset given.now }
{
    for at in given {
        if offset == *at {
            return true;
        }
    }
    false
}

/// Puts zero or null into a cell.
fn put_zero(code: &mut Builder, low: u32, object: u32, cell: Cell) -> Result<(), NoMemory>
    ensures { OnOk result (code.new ≡ put_zero low object cell code.old) }
{
    let place = Place::Local {
        object,
        offset: small(cell.offset)?,
    };
    code.put_write(place, cell.kind, low)?;
    code.put(zero_line(low, cell.kind))
}

fn zero_line(low: u32, kind: Kind) -> Line
    ensures { result ≡ zero_line low kind }
{
    match kind {
        Kind::Ptr => Line::PutNull { to: low },
        _ => Line::Put { to: low, number: 0 },
    }
}

/// Puts the expressions of an initialiser in order, each stored before the next is evaluated.
fn lower_pieces(
    code: &mut Builder,
    object: u32,
    pieces: &[Piece],
    prog: &Prog,
    base: Base,
) -> Result<(), NoMemory>
    ensures { OnOk result (code.new ≡ make_pieces (program_of prog.now) base.first base.low object
        (map (piece_of prog.now.types) pieces.now) code.old) }
{
    for index in (0..pieces.len()).rev() {
        let piece = &pieces[index];
        put_piece(code, base.low, object, piece.offset, piece.access, prog)?;
        lower_value(code, &piece.value, prog, base)?;
    }
    Ok(())
}

/// Puts what stores the value of an expression of an initialiser.
fn put_piece(
    code: &mut Builder,
    low: u32,
    object: u32,
    offset: u32,
    access: Access,
    prog: &Prog,
) -> Result<(), NoMemory>
    ensures { OnOk result (code.new ≡ put_piece (program_of prog.now) low object offset
        (access_of prog.now.types access) code.old) }
{
    let place = Place::Local { object, offset };
    match access {
        Access::Scalar(kind) => code.put_write(place, kind, low),
        Access::Struct { number, .. } => {
            let cells = cells_of_struct(code.alloc(), number, &prog.types)?;
            let groups = groups_of_piece(object, &cells, prog)?;
            put_groups(code, low, place, groups, &cells)
        }
    }
}
