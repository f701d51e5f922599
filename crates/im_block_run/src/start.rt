ghost use Rattle.std.specs.Prelude.{◌≡◌, ◌<◌, ℕ, get_or, length, map, slice_get, IfOk, IfSome};
ghost use Rattle.std.specs.Prelude.{OnOk, Some};
ghost use Rattle.im_store.specs.Objects as store;
ghost use Rattle.im_store.specs.Statics.{first_value, value_at};
ghost use Rattle.im_block.specs.Meaning as meaning;
ghost use Rattle.im_block.specs.Meaning.{static_of};
ghost use Rattle.im_block.specs.Runs.{before};
ghost use Rattle.im_block.specs.declared.unit.Unit as blocks;
ghost use Rattle.im_eval_store.specs.declared.value.Value.TheVariants.{Unset};
ghost use Rattle.im_eval_store.specs.Shown.{shown};
ghost use Rattle.im_eval_machine.specs.Fresh.{AreFresh, IsFresh};
ghost use Rattle.im_block_run.specs.Laid.{AreLaidOut};
ghost use Rattle.im_block_run.specs.Shown.{IsFrame, IsState, setting_of};

use crate::code::Code;
use crate::state::{Frame, State};
use crate::stop::Stop;
use im_block::{Constant, Exit, Static};
use im_ctype::Cell;
use im_eval_store::{Activation, Live, Memory, ObjectName, Place, Plan, Value};
use im_store::Number;
use std::alloc::Global;

/// A number, where it is one that the operators take.
pub(crate) fn small(number: i128) -> Option<Value>
    ensures { IfSome result (λ value. store.Number number ≡ shown value) }
{
    match Number::of(number) {
        Some(number) => Some(Value::Number(number)),
        None => None,
    }
}

/// The first value of a cell of a static.
fn first_of(constant: Constant) -> Option<Value>
    ensures { IfSome result (λ value. meaning.constant constant ≡ shown value) }
{
    match constant {
        Constant::Number(number) => small(number),
        Constant::Null => Some(Value::Null),
        Constant::Inside { object, offset } => Some(Value::Pointer(Place {
            object: ObjectName {
                activation: 0,
                depth: 0,
                number: object as u64,
            },
            offset,
            level: 0,
        })),
    }
}

/// Cells get their first values; of several at one offset, the first one decides.
fn set_cells(object: &mut Live, cells: &[Cell], constants: &[Constant]) -> Result<(), Stop>
    ensures plan { OnOk result (object.new.plan ≡ object.old.plan) }
    ensures values { OnOk result (((i : ℕ) → get_or object.old.values.items i Unset ≡ Unset)
        → (i : ℕ) → i < length object.old.plan.now.kinds.items
        → shown (get_or object.new.values.items i Unset)
        ≡ value_at cells.now (map meaning.constant constants.now) i) }
{
    let mut left = cells.len().min(constants.len());
    'fill: while left > 0 {
        left -= 1;
        let Some(value) = first_of(constants[left]) else {
            return Err(Stop::Beyond);
        };
        object.set(cells[left].offset, value);
    }
    Ok(())
}

/// A static object with its first values.
fn static_object<'p>(alloc: Global, plan: &'p Plan, one: &Static) -> Result<Live<'p>, Stop>
    ensures { IfOk result (IsFresh plan.entry.now (first_value (Some (static_of one.now)))) }
{
    let mut object = Live::new(alloc, plan)?;
    set_cells(&mut object, &one.object.cells, &one.values)?;
    Ok(object)
}

/// The static objects before the start of `main` (C11 6.7.9).
fn statics_of<'p>(
    alloc: Global,
    plans: &'p [Plan],
    statics: &[Static],
) -> Result<Vec<Live<'p>>, Stop>
    requires { length plans.now ≡ length statics.now }
    ensures { IfOk result (λ objects. AreFresh plans.entry.now
        (λ k. first_value (slice_get (map static_of statics.now) k)) objects.items) }
{
    let mut objects = Vec::new(alloc);
    for (number, one) in statics.iter().enumerate() {
        objects.push(static_object(alloc, &plans[number], one)?)?;
    }
    Ok(objects)
}

/// The state before `main` begins: no activation is at work (C11 5.1.2).
pub(crate) fn before<'u>(alloc: Global, code: Code<'u>, fuel: u64) -> Result<State<'u>, Stop>
    requires { AreLaidOut code.unit.now code.layouts.now }
    ensures { IfOk result (λ state. IsState state
        (before code.entry.unit.now (setting_of code.entry.setting) fuel)) }
{
    let objects = statics_of(alloc, &code.layouts.statics, &code.unit.statics)?;
    let mut activations = Vec::new(alloc);
    activations.push(Activation {
        number: 0,
        depth: 0,
        first: 0,
        objects,
    })?;
    Ok(State {
        frame: nobody(alloc),
        callers: Vec::new(alloc),
        memory: Memory { activations },
        begun: 0,
        input: code.setting.input,
        output: Vec::new(alloc),
        fuel,
    })
}

/// The frame in whose place that of `main` comes.
fn nobody<'u>(alloc: Global) -> Frame<'u>
    ensures { (u : blocks.Unit) (g : meaning.Setting) (n : ℕ) → IsFrame result (before u g n).frame }
{
    Frame {
        function: 0,
        lines: &[],
        exit: Exit::Jump(0),
        number: 0,
        depth: 0,
        registers: Vec::new(alloc),
        to: 0,
    }
}
