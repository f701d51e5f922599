ghost use Rattle.std.specs.Prelude.{◌≡◌, ℕ, map, Some, IfOk};
ghost use Rattle.std.specs.List.{All};
ghost use Rattle.im_ctype.specs.Table.{IsIn, layout_of};
ghost use Rattle.im_num.specs.Variables.{variable_of};
ghost use Rattle.im_num.specs.declared.kind.Kind.{Kind};
ghost use Rattle.im_store.specs.Objects.{Shape, Store, shape_of, static};
ghost use Rattle.im_store.specs.Outcomes as outcomes;
ghost use Rattle.im_typed.specs.ProgramOf.{static_of};
ghost use Rattle.im_typed.specs.declared.program.Static as rust_static;
ghost use Rattle.im_eval_store.specs.Living.{Holds};
ghost use Rattle.im_eval_store.specs.Shown.{shown};
ghost use Rattle.im_eval_machine.specs.Endings.{AreLive};
ghost use Rattle.im_eval.specs.Shows.{AllStand};

use im_ctype::{Cell, TypeTable, cells, size_of};
use im_eval_store::{Memory, ObjectName, Value};
use im_num::{CellValue, NoMemory, Var, beyond_memory};
use im_typed::{Object, Static};
use std::alloc::Global;

/// A value as an end shows it.
fn cell_shown(value: Value) -> Result<CellValue, NoMemory>
    ensures { IfOk result (λ cell. cell ≡ outcomes.cell_shown (shown value)) }
{
    match value {
        Value::Number(number) => Ok(CellValue::Number(number.value)),
        Value::Null => Ok(CellValue::Null),
        Value::Unset => Ok(CellValue::NoValue),
        Value::Pointer(place) => {
            if place.object.activation != 0 {
                return Ok(CellValue::Local);
            }
            match u32::try_from(place.object.number) {
                Err(_) => Err(beyond_memory()),
                Ok(object) => Ok(CellValue::Inside {
                    object,
                    offset: place.offset,
                }),
            }
        }
    }
}

/// What the cell at an offset of a static has.
fn static_value(memory: &Memory, number: u64, offset: u64) -> Value
    ensures { (last : ℕ) (store : Store) (shape : Shape) (kind : Kind) → Holds memory.now last store
        → store.shape (static number) ≡ Some shape → shape.cells offset ≡ Some kind
        → shown result ≡ store.values (static number) offset }
{
    let name = ObjectName {
        activation: 0,
        depth: 0,
        number,
    };
    match memory.position(name, 0) {
        None => Value::Unset,
        Some(at) => memory.activations[at.level].objects[at.index].value(offset),
    }
}

/// What a cell of a static shows.
fn shown_at(memory: &Memory, number: u64, cell: &Cell) -> Result<CellValue, NoMemory>
    ensures { IfOk result (λ value. (last : ℕ) (store : Store) (shape : Shape) (kind : Kind)
        → Holds memory.now last store → store.shape (static number) ≡ Some shape
        → shape.cells cell.now.offset ≡ Some kind
        → value ≡ outcomes.cell_shown (store.values (static number) cell.now.offset)) }
{
    cell_shown(static_value(memory, number, cell.offset))
}

/// What these cells of a static show.
fn cells_shown(
    alloc: Global,
    memory: &Memory,
    number: u64,
    cells: &[Cell],
) -> Result<Vec<CellValue>, NoMemory>
    ensures { IfOk result (λ values. (last : ℕ) (store : Store) (shape : Shape)
        → Holds memory.now last store → store.shape (static number) ≡ Some shape
        → AllStand shape.cells cells.now
        → values.items ≡ outcomes.cells_shown (store.values (static number)) cells.now) }
{
    let mut values = Vec::new(alloc);
    for cell in cells {
        values.push(shown_at(memory, number, cell)?)?;
    }
    Ok(values)
}

/// A static as an end shows it.
fn variable(
    alloc: Global,
    types: &TypeTable,
    memory: &Memory,
    number: u64,
    object: &Object,
) -> Result<Var, NoMemory>
    requires { IsIn types.now object.now.ty }
    ensures { IfOk result (λ shown. (last : ℕ) (store : Store) → Holds memory.now last store
        → store.shape (static number)
        ≡ Some (shape_of object.now.size (layout_of types.now object.now.ty).cells)
        → variable_of shown ≡ record {
          name = object.now.name.items;
          cells
              = outcomes.cells_shown (store.values (static number))
              (layout_of types.now object.now.ty).cells;
        }) }
{
    let _bytes = size_of(object.ty, types);
    let name = Vec::from_slice(alloc, &object.name)?;
    let cells = cells(alloc, object.ty, types)?;
    let shown = cells_shown(alloc, memory, number, &cells)?;
    Ok(Var { name, cells: shown })
}

/// The statics as an end shows them.
pub(crate) fn variables(
    alloc: Global,
    types: &TypeTable,
    memory: &Memory,
    statics: &[Static],
) -> Result<Vec<Var>, NoMemory>
    requires { All (λ (s : rust_static.Static). IsIn types.now s.object.ty) statics.now }
    ensures { IfOk result (λ shown. (last : ℕ) (store : Store) → Holds memory.now last store
        → AreLive (map (static_of types.now) statics.now) store → map variable_of shown.items
        ≡ outcomes.variables (map (static_of types.now) statics.now) store) }
{
    let mut shown = Vec::new(alloc);
    for (number, one) in statics.iter().enumerate() {
        shown.push(variable(alloc, types, memory, number as u64, &one.object)?)?;
    }
    Ok(shown)
}
