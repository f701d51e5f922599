ghost use Rattle.std.specs.Prelude.{◌≡◌, ℕ, ◌<◌, get_or, length, map, slice_get, Some, IfOk};
ghost use Rattle.std.specs.List.{All};
ghost use Rattle.im_ctype.specs.Table.{IsIn, Table};
ghost use Rattle.im_store.specs.Statics.{first_value, value_at};
ghost use Rattle.im_typed.specs.ProgramOf.{first_of, static_of};
ghost use Rattle.im_typed.specs.declared.program.Static as rust_static;
ghost use Rattle.im_eval_store.specs.declared.value.Value.TheVariants.{Unset};
ghost use Rattle.im_eval_store.specs.Shown.{shown};
ghost use Rattle.im_eval_machine.specs.Firsts.{first_values};
ghost use Rattle.im_eval_machine.specs.Fresh.{AreFresh, IsFresh};
ghost use Rattle.im_eval_machine.specs.Small.{small_static, small_value};
ghost use Rattle.im_typed.specs.Programs.{start};
ghost use Rattle.im_eval_machine.specs.Settings.{AreLayoutsOf, HasKnownTypes, setting_of};
ghost use Rattle.im_eval_machine.specs.Shown.{IsIn as Has};

use crate::code::Code;
use crate::machine::Machine;
use crate::operator::small;
use im_ctype::{Cell, TypeTable, cells, size_of};
use im_eval_store::{Activation, Live, Memory, ObjectName, Place, Plan, Value};
use im_num::NoMemory;
use im_typed::{Constant, Static};
use std::alloc::Global;

/// The first value of a cell of a static.
fn first_of(constant: Constant) -> Value
    ensures { (types : Table) → shown result ≡ small_value (first_of types constant) }
{
    match constant {
        Constant::Number(value) => Value::Number(small(value)),
        Constant::Null => Value::Null,
        Constant::Inside { object, offset } => Value::Pointer(Place {
            object: ObjectName {
                activation: 0,
                depth: 0,
                number: object as u64,
            },
            offset,
            level: 0,
        }),
    }
}

/// Cells get their first values; of several at one offset, the first one decides.
fn set_cells(object: &mut Live, cells: &[Cell], constants: &[Constant])
    ensures plan { object.new.plan ≡ object.old.plan }
    ensures values { (types : Table) → ((i : ℕ) → get_or object.old.values.items i Unset ≡ Unset)
        → (i : ℕ) → i < length object.old.plan.now.kinds.items
        → shown (get_or object.new.values.items i Unset)
        ≡ value_at cells.now (first_values types constants.now) i }
{
    let mut left = cells.len().min(constants.len());
    'fill: while left > 0 {
        left -= 1;
        object.set(cells[left].offset, first_of(constants[left]));
    }
}

/// A static object with its first values.
fn static_object<'p>(
    alloc: Global,
    types: &TypeTable,
    plan: &'p Plan,
    variable: &Static,
) -> Result<Live<'p>, NoMemory>
    requires { IsIn types.now variable.now.object.ty }
    ensures { IfOk result (IsFresh plan.entry.now
        (first_value (Some (small_static (static_of types.now variable.now))))) }
{
    let mut object = Live::new(alloc, plan)?;
    let _bytes = size_of(variable.object.ty, types);
    let cells = cells(alloc, variable.object.ty, types)?;
    set_cells(&mut object, &cells, &variable.cells);
    Ok(object)
}

/// The static objects before the start of `main` (C11 6.7.9).
fn statics_of<'p>(
    alloc: Global,
    types: &TypeTable,
    plans: &'p [Plan],
    statics: &[Static],
) -> Result<Vec<Live<'p>>, NoMemory>
    requires known { All (λ (s : rust_static.Static). IsIn types.now s.object.ty) statics.now }
    requires count { length plans.now ≡ length statics.now }
    ensures { IfOk result (λ objects. AreFresh plans.entry.now (λ k. first_value (slice_get
        (map small_static (map (static_of types.now) statics.now)) k)) objects.items) }
{
    let mut objects = Vec::new(alloc);
    for (number, variable) in statics.iter().enumerate() {
        objects.push(static_object(alloc, types, &plans[number], variable)?)?;
    }
    Ok(objects)
}

/// The machine on which a program starts, with so many units of fuel (C11 5.1.2).
pub fn machine_of<'p>(
    alloc: Global,
    code: Code<'p>,
    input: &'p [u8],
    fuel: u64,
) -> Result<Machine<'p>, NoMemory>
    requires laid_out { AreLayoutsOf code.prog.now code.layouts.now }
    requires known { HasKnownTypes code.prog.now }
    ensures { IfOk result (λ machine. Has machine
        (start (setting_of code.entry) input.entry.now fuel)) }
{
    let prog = code.prog;
    let objects = statics_of(alloc, &prog.types, &code.layouts.statics, &prog.statics)?;
    let mut activations = Vec::new(alloc);
    activations.push(Activation {
        number: 0,
        depth: 0,
        first: 0,
        objects,
    })?;
    Ok(Machine {
        memory: Memory { activations },
        activations: 0,
        depth: 0,
        input,
        output: Vec::new(alloc),
        fuel,
    })
}
