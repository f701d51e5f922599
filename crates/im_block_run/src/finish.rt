ghost use Rattle.std.specs.Prelude.{◌≡◌, ℕ, map, IfOk, IfSome};
ghost use Rattle.im_num.specs.Variables.{variable_of};
ghost use Rattle.im_store.specs.Objects.{Store, static};
ghost use Rattle.im_store.specs.Outcomes as outcomes;
ghost use Rattle.im_block.specs.Meaning as meaning;
ghost use Rattle.im_eval_store.specs.Living.{Holds};
ghost use Rattle.im_eval_store.specs.Shown.{shown};
ghost use Rattle.im_eval_machine.specs.Endings.{reason_number, told};
ghost use Rattle.im_block_run.specs.Shown.{Halts, IsState, plain};
ghost use Rattle.im_block_run.specs.Ends.{Tells};

use crate::state::State;
use crate::stop::Stop;
use im_block::{Static, Unit};
use im_ctype::Cell;
use im_eval_machine::{Outcome, Reason};
use im_eval_store::{Memory, ObjectName, Value};
use im_num::{CellValue, NoMemory, Var};
use std::alloc::Global;

/// A value as an end shows it.
fn cell_shown(value: Value) -> Result<CellValue, Stop>
    ensures { IfOk result (λ cell. cell ≡ outcomes.cell_shown (shown value)) }
{
    match value {
        Value::Number(number) => Ok(CellValue::Number(number.value)),
        Value::Null => Ok(CellValue::Null),
        Value::Unset => Ok(CellValue::NoValue),
        Value::Pointer(place) => {
            if place.object.activation != 0 {
                return Ok(CellValue::Local);
            }
            match u32::try_from(place.object.number) {
                Err(_) => Err(Stop::Beyond),
                Ok(object) => Ok(CellValue::Inside {
                    object,
                    offset: place.offset,
                }),
            }
        }
    }
}

/// What the cell at an offset of a static has, where there is such a cell.
fn static_value(memory: &Memory, number: u64, offset: u64) -> Result<Value, Stop>
    ensures { IfOk result (λ value. (last : ℕ) (store : Store)
        → Holds memory.now last (plain store)
        → store.values (static number) offset ≡ shown value) }
{
    let name = ObjectName {
        activation: 0,
        depth: 0,
        number,
    };
    let Some(at) = memory.position(name, 0) else {
        return Err(Stop::Beyond);
    };
    let object = &memory.activations[at.level].objects[at.index];
    match object.plan.kind(offset) {
        None => Err(Stop::Beyond),
        Some(_) => Ok(object.value(offset)),
    }
}

/// What these cells of a static show.
fn cells_shown(
    alloc: Global,
    memory: &Memory,
    number: u64,
    cells: &[Cell],
) -> Result<Vec<CellValue>, Stop>
    ensures { IfOk result (λ values. (last : ℕ) (store : Store)
        → Holds memory.now last (plain store)
        → values.items ≡ outcomes.cells_shown (store.values (static number)) cells.now) }
{
    let mut values = Vec::new(alloc);
    for cell in cells {
        values.push(cell_shown(static_value(memory, number, cell.offset)?)?)?;
    }
    Ok(values)
}

/// A static as an end shows it.
fn variable(alloc: Global, memory: &Memory, number: u64, one: &Static) -> Result<Var, Stop>
    ensures { IfOk result (λ shown. (last : ℕ) (store : Store)
        → Holds memory.now last (plain store) → variable_of shown ≡ record {
          name = one.now.name.items;
          cells
              = outcomes.cells_shown (store.values (static number)) one.now.object.cells.items;
        }) }
{
    let cells = cells_shown(alloc, memory, number, &one.object.cells)?;
    let name = name_of(alloc, &one.name)?;
    Ok(Var { name, cells })
}

/// A copy of a name.
fn name_of(alloc: Global, name: &[u8]) -> Result<Vec<u8>, NoMemory>
    ensures { IfOk result (λ copy. copy.items ≡ name.now) }
{
    Ok(Vec::from_slice(alloc, name)?)
}

/// The statics as an end shows them.
fn variables(alloc: Global, memory: &Memory, statics: &[Static]) -> Result<Vec<Var>, Stop>
    ensures { IfOk result (λ shown. (last : ℕ) (store : Store)
        → Holds memory.now last (plain store) → map variable_of shown.items
        ≡ outcomes.variables (map meaning.static_of statics.now) store) }
{
    let mut shown = Vec::new(alloc);
    for (number, one) in statics.iter().enumerate() {
        shown.push(variable(alloc, memory, number as u64, one)?)?;
    }
    Ok(shown)
}

/// An end, with the statics as they are then.
fn end_of(
    alloc: Global,
    unit: &Unit,
    state: State,
    reason: Reason,
    status: i128,
) -> Result<Option<Outcome>, NoMemory>
    ensures { IfOk result (λ found. IfSome found (λ outcome. (s : meaning.State)
        → IsState state.entry s → told outcome
        ≡ meaning.ended unit.now (reason_number reason) status s)) }
{
    match variables(alloc, &state.memory, &unit.statics) {
        Ok(variables) => Ok(Some(Outcome::End {
            reason,
            status,
            output: state.output,
            variables,
        })),
        Err(Stop::OutOfMemory) => Err(NoMemory::OutOfMemory),
        Err(_) => Ok(None),
    }
}

/// What is told of a run that goes no further.
pub(crate) fn conclude(
    alloc: Global,
    unit: &Unit,
    state: State,
    stop: Stop,
) -> Result<Option<Outcome>, NoMemory>
    ensures { IfOk result (λ found. IfSome found (λ outcome. (r : meaning.Next)
        → Halts unit.now stop state.entry r → Tells outcome r)) }
{
    match stop {
        Stop::Undefined(why) => Ok(Some(Outcome::Undefined(why))),
        Stop::MoreFuel => Ok(Some(Outcome::More {
            output: state.output,
        })),
        Stop::StackExhausted => end_of(alloc, unit, state, Reason::StackExhausted, 0),
        Stop::Returned(number) => { end_of(alloc, unit, state, Reason::Returned, number.value) }
        Stop::Beyond => Ok(None),
        Stop::OutOfMemory => Err(NoMemory::OutOfMemory),
    }
}
