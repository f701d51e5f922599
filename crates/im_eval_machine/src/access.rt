ghost use Rattle.std.specs.Prelude.{◌≡◌, ◌+◌, ℕ, ◌∷◌, [], IfErr};
ghost use Rattle.im_ctype.specs.Layout.{layout_at, layouts};
ghost use Rattle.im_store.specs.Access.{at_place, read_cell, read_cells, write_cell, write_cells};
ghost use Rattle.im_store.specs.Objects.{Store};
ghost use Rattle.im_typed.specs.ProgramOf.{access_of};
ghost use Rattle.im_typed.specs.Runs.{State};
ghost use Rattle.im_typed.specs.Values as typed_values;
ghost use Rattle.im_eval_store.specs.Changes.{Stores};
ghost use Rattle.im_eval_store.specs.Living.{Holds};
ghost use Rattle.im_eval_store.specs.Shown.{Checks, object_of, shown};
ghost use Rattle.im_eval_machine.specs.Accesses.{ReadsCells};
ghost use Rattle.im_eval_machine.specs.Settings.{AreLayoutsOf};
ghost use Rattle.im_eval_machine.specs.Shown.{IsLook, IsStep, nothing, shown_all, values};
ghost use Rattle.im_eval_machine.specs.declared.stopped.Stopped.TheVariants.{OutOfMemory};

use crate::code::Code;
use crate::found::Found;
use crate::machine::Machine;
use crate::stopped::Stopped;
use im_ctype::Cell;
use im_eval_store::{Memory, Place, Value};
use im_num::Kind;
use im_store::Undefined;
use im_typed::Access;
use std::alloc::Global;

/// The value of a scalar, where it is used (C11 6.2.4, 6.9.1).
pub fn used(machine: &Machine, found: &Found) -> Result<Value, Stopped>
    ensures look { IsLook shown result machine.now (typed_values.used (values found.now)) }
    ensures spared { IfErr result (λ stop. stop ≡ OutOfMemory → ⊥) }
{
    match found.get(0) {
        None => Err(Stopped::Undefined(Undefined::MissingResult)),
        Some(value) => Ok(machine.memory.taken(value)?),
    }
}

/// What a place has in a cell of a kind.
pub(crate) fn read_scalar(memory: &Memory, kind: Kind, at: Value) -> Result<Value, Undefined>
    ensures { (last : ℕ) (store : Store) → Holds memory.now last store → Checks result
        (at_place (shown at) (λ o offset. read_cell store o offset kind)) }
{
    match at {
        Value::Pointer(place) => memory.read_cell(place, 0, kind),
        Value::Number(_) | Value::Null | Value::Unset => Err(Undefined::NoSuchCell),
    }
}

/// Stores a value at a place, in a cell of a kind.
pub(crate) fn write_scalar(
    memory: &mut Memory,
    kind: Kind,
    at: Value,
    value: Value,
) -> Result<(), Undefined>
    ensures { (last : ℕ) (store : Store) → Holds memory.old last store
        → Stores result memory.new last
        (at_place (shown at) (λ o offset. write_cell store o offset kind (shown value))) }
{
    match at {
        Value::Pointer(place) => memory.write_cell(place, 0, kind, value),
        Value::Number(_) | Value::Null | Value::Unset => Err(Undefined::NoSuchCell),
    }
}

/// What cells have behind a place, in their order.
fn read_struct(
    alloc: Global,
    memory: &Memory,
    cells: &[Cell],
    place: Place,
) -> Result<Vec<Value>, Stopped>
    ensures { (last : ℕ) (store : Store) → Holds memory.now last store → ReadsCells result
        (read_cells store (object_of place.object) place.offset cells.now) }
{
    let mut values = Vec::new(alloc);
    for cell in cells {
        values.push(memory.read_cell(place, cell.offset, cell.kind)?)?;
    }
    Ok(values)
}

/// What stands at a place (C11 6.3.2.1).
pub fn read_at(
    alloc: Global,
    code: Code,
    machine: &Machine,
    access: Access,
    at: Value,
) -> Result<Found, Stopped>
    requires { AreLayoutsOf code.prog.now code.layouts.now }
    ensures { IsLook values result machine.now
        (typed_values.read_at (access_of code.entry.prog.now.types access) (shown at)) }
{
    match access {
        Access::Scalar(kind) => Ok(Found::One(read_scalar(&machine.memory, kind, at)?)),
        Access::Struct { number, .. } => match at {
            Value::Pointer(place) => {
                let cells = code.cells_of(number);
                Ok(Found::Cells(read_struct(alloc, &machine.memory, cells, place)?))
            }
            Value::Number(_) | Value::Null | Value::Unset => {
                Err(Stopped::Undefined(Undefined::NoSuchCell))
            }
        },
    }
}

/// Stores values in cells behind a place, in their order.
fn write_struct(
    memory: &mut Memory,
    cells: &[Cell],
    place: Place,
    found: &Found,
) -> Result<(), Undefined>
    ensures { (last : ℕ) (store : Store) → Holds memory.old last store
        → Stores result memory.new last (write_cells store (object_of place.object) place.offset
        cells.now (values found.now)) }
{
    for (number, cell) in cells.iter().enumerate() {
        match found.get(number) {
            None => return Err(Undefined::NoSuchCell),
            Some(value) => memory.write_cell(place, cell.offset, cell.kind, value)?,
        }
    }
    Ok(())
}

/// Stores what was found in the cells of an access to a place.
fn write_found(
    code: Code,
    memory: &mut Memory,
    access: Access,
    at: Value,
    found: &Found,
) -> Result<(), Undefined>
    requires { AreLayoutsOf code.prog.now code.layouts.now }
    ensures { (last : ℕ) (store : Store) → Holds memory.old last store
        → Stores result memory.new last (at_place (shown at) (λ o offset. write_cells store o offset
        (typed_values.cells_of (access_of code.entry.prog.now.types access))
        (values found.now))) }
{
    match access {
        Access::Scalar(kind) => match found.get(0) {
            None => Err(Undefined::NoSuchCell),
            Some(value) => write_scalar(memory, kind, at, value),
        },
        Access::Struct { number, .. } => match at {
            Value::Pointer(place) => write_struct(memory, code.cells_of(number), place, found),
            Value::Number(_) | Value::Null | Value::Unset => Err(Undefined::NoSuchCell),
        },
    }
}

/// Stores what was found at a place (C11 6.5.16).
pub fn write_at(
    code: Code,
    machine: &mut Machine,
    access: Access,
    at: Value,
    found: &Found,
) -> Result<(), Stopped>
    requires { AreLayoutsOf code.prog.now code.layouts.now }
    ensures step { IsStep (λ done. values found.now) result machine.old machine.new
        (typed_values.write_at (access_of code.entry.prog.now.types access) (shown at)
        (values found.now)) }
    ensures spared { IfErr result (λ stop. stop ≡ OutOfMemory → ⊥) }
{
    Ok(write_found(code, &mut machine.memory, access, at, found)?)
}
