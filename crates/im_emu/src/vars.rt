ghost use Rattle.std.specs.Prelude.{◌≡◌, ◌≤◌, ◌+◌, ◌-◌, ◌*◌, ◌%◌, ◌++◌, None, true, if◌then◌else◌};
ghost use Rattle.std.specs.Prelude.{map, IfOk, OnOk};
ghost use Rattle.std.specs.List.{flat_map};
ghost use Rattle.im_num.specs.declared.values.CellValue.TheVariants.{Inside, Local};
ghost use Rattle.im_num.specs.Kinds.{kind_size};
ghost use Rattle.im_mem.specs.Memory.{little, is_place};
ghost use Rattle.im_image.specs.Contents.{run_end, AreRuns};
ghost use Rattle.im_num.specs.Variables.{variable_of};
ghost use Rattle.im_device.specs.Variables.{reaches, place_from, pointer_of, cell_of, run_cells};
ghost use Rattle.im_device.specs.Variables.{vars_of};
ghost use Rattle.im_emu.specs.Layouts.{AreLaidOut, HaveBegun};

use im_image::{CellRun, Object};
use im_mem::Memory;
use im_num::{CellValue, Kind, NoMemory, Var, of_word};
use std::alloc::{AllocError, Global};

// Bytes of a cell.
fn size_of(kind: Kind) -> u32
    ensures { result ≡ kind_size kind }
{
    match kind {
        Kind::I8 | Kind::U8 => 1,
        Kind::I16 | Kind::U16 => 2,
        Kind::I32 | Kind::U32 | Kind::Ptr => 4,
    }
}

// The place of an address that is no lower than the object's first, the object having this number.
fn place_in(object: &Object, number: u32, address: u32) -> CellValue
    requires { object.now.at ≤ address }
    ensures { result ≡ (if reaches object.now address then Inside number (address - object.now.at)
        else Local) }
{
    let offset = address - object.at;
    if offset <= object.size {
        CellValue::Inside {
            object: number,
            offset,
        }
    } else {
        CellValue::Local
    }
}

// How many of the objects begin no later than at an address.
fn begun_by(objects: &[Object], address: u32) -> usize
    requires { AreLaidOut objects.now }
    ensures { HaveBegun objects.now address result }
{
    objects.partition_point(|object| object.at <= address)
}

// The place of an address among the objects.
fn place_among(objects: &[Object], address: u32) -> CellValue
    requires { AreLaidOut objects.now }
    ensures { result ≡ place_from 0 objects.now address }
{
    let begun = begun_by(objects, address);
    if begun == 0 {
        return CellValue::Local;
    }
    place_in(&objects[begun - 1], (begun - 1) as u32, address)
}

fn pointer_at(objects: &[Object], word: u32) -> CellValue
    requires { AreLaidOut objects.now }
    ensures { result ≡ pointer_of objects.now word }
{
    if word == 0 {
        CellValue::Null
    } else {
        place_among(objects, word)
    }
}

fn number_at<M: Memory>(memory: &M, kind: Kind, at: u32) -> u32
    requires { is_place at (kind_size kind) ≡ true }
    ensures { result ≡ little (M.bytes memory.now) at (kind_size kind) }
{
    match memory.load(at, size_of(kind)) {
        Some(number) => number,
        None => unreachable!(),
    }
}

fn cell_at<M: Memory>(memory: &M, objects: &[Object], kind: Kind, at: u32) -> CellValue
    requires laid { AreLaidOut objects.now }
    requires place { is_place at (kind_size kind) ≡ true }
    ensures { result ≡ cell_of objects.now (M.bytes memory.now) kind at }
{
    let number = number_at(memory, kind, at);
    match kind {
        Kind::Ptr => pointer_at(objects, number),
        Kind::I8 | Kind::U8 | Kind::I16 | Kind::U16 | Kind::I32 | Kind::U32 => {
            CellValue::Number(of_word(kind, number))
        }
    }
}

// The cells of a run, in an object at an address.
fn put_cells<M: Memory>(
    cells: &mut Vec<CellValue>,
    memory: &M,
    objects: &[Object],
    at: u32,
    run: &CellRun,
) -> Result<(), AllocError>
    requires laid { AreLaidOut objects.now }
    requires aligned { (at + run.now.offset) % kind_size run.now.kind ≡ 0 }
    requires room { at + run_end run.now ≤ 5242880 }
    ensures { OnOk result (cells.new.items ≡ cells.old.items
        ++ run_cells objects.now (M.bytes memory.now) at run.now) }
{
    let size = size_of(run.kind);
    let mut next = at + run.offset;
    for _ in 0..run.count {
        cells.push(cell_at(memory, objects, run.kind, next))?;
        next += size;
    }
    Ok(())
}

fn cells_of<M: Memory>(
    alloc: Global,
    memory: &M,
    objects: &[Object],
    object: &Object,
) -> Result<Vec<CellValue>, AllocError>
    requires laid { AreLaidOut objects.now }
    requires runs { AreRuns object.now.at object.now.size None object.now.runs }
    requires room { object.now.at + object.now.size ≤ 5242880 }
    ensures { IfOk result (λ cells. cells.items
        ≡ flat_map (run_cells objects.now (M.bytes memory.now) object.now.at) object.now.runs) }
{
    let mut cells = Vec::new(alloc);
    for run in &object.runs {
        put_cells(&mut cells, memory, objects, object.at, run)?;
    }
    Ok(cells)
}

/// The variables that a memory shows, by the objects.
pub fn variables<M: Memory>(
    alloc: Global,
    memory: &M,
    objects: &[Object],
) -> Result<Vec<Var>, NoMemory>
    requires { AreLaidOut objects.now }
    ensures { IfOk result (λ vars. map variable_of vars.items
        ≡ vars_of objects.now (M.bytes memory.now)) }
{
    let mut vars = Vec::new(alloc);
    for object in objects {
        vars.push(Var {
            name: Vec::from_slice(alloc, &object.name)?,
            cells: cells_of(alloc, memory, objects, object)?,
        })?;
    }
    Ok(vars)
}
