ghost use Rattle.std.specs.Prelude.{◌≡◌, IfOk, slice_get};
ghost use Rattle.im_store.specs.Objects.{Named};
ghost use Rattle.std.specs.Option.{option_map};
ghost use Rattle.im_typed.specs.Programs.{leaving};
ghost use Rattle.im_typed.specs.Runs as runs;
ghost use Rattle.im_eval_store.specs.Shown.{object_of, shown};
ghost use Rattle.im_eval_machine.specs.Activations.{entered, enters_function, local_in};
ghost use Rattle.im_eval_machine.specs.Settings.{AreLayoutsOf, setting_of};
ghost use Rattle.im_eval_machine.specs.Begun.{HasBegun};
ghost use Rattle.im_eval_machine.specs.Fresh.{AreFresh, IsFresh, argument_at};
ghost use Rattle.im_eval_machine.specs.Shown.{IsStep, nothing, shown_all};

use crate::code::{Code, Layout};
use crate::here::Here;
use crate::machine::Machine;
use crate::stopped::Stopped;
use im_eval_store::{Activation, Live, ObjectName, Plan, Value};
use im_num::{NoMemory, beyond_memory};
use im_store::Undefined;
use std::alloc::Global;

impl Here {
    /// The object of a parameter or local of the function, by its number there.
    pub fn local(self, number: u32) -> ObjectName
        ensures { object_of result ≡ local_in self number }
    {
        ObjectName {
            activation: self.activation,
            depth: self.depth,
            number: self.first + number as u64,
        }
    }
}

/// New objects of these plans; the first of them hold the arguments.
fn objects_of<'p>(
    alloc: Global,
    plans: &'p [Plan],
    arguments: &[Value],
) -> Result<Vec<Live<'p>>, NoMemory>
    ensures { IfOk result (λ objects. AreFresh plans.entry.now
        (λ k. argument_at (slice_get (shown_all arguments.now) k)) objects.items) }
{
    let mut objects = Vec::new(alloc);
    for (number, plan) in plans.iter().enumerate() {
        objects.push(new_object(alloc, plan, argument_of(arguments, number))?)?;
    }
    Ok(objects)
}

/// The argument of that number, if there is one.
fn argument_of(arguments: &[Value], number: usize) -> Option<Value>
    ensures { option_map shown result ≡ slice_get (shown_all arguments.now) number }
{
    arguments.get(number).copied()
}

/// A new object; a parameter holds its argument.
fn new_object<'p>(
    alloc: Global,
    plan: &'p Plan,
    argument: Option<Value>,
) -> Result<Live<'p>, NoMemory>
    ensures { IfOk result (IsFresh plan.entry.now (argument_at (option_map shown argument))) }
{
    let mut object = Live::new(alloc, plan)?;
    match argument {
        None => Ok(object),
        Some(value) => {
            object.set(0, value);
            Ok(object)
        }
    }
}

/// A function is entered, where its frame has room: its objects come into being, the parameters
/// with the arguments (C11 6.2.4, 6.5.2.2).
pub fn enter<'p>(
    alloc: Global,
    code: Code<'p>,
    machine: &mut Machine<'p>,
    function: u32,
    arguments: &[Value],
) -> Result<Here, Stopped>
    requires { AreLayoutsOf code.prog.now code.layouts.now }
    ensures { IsStep entered result machine.old machine.new
        (enters_function (setting_of code.entry) function (shown_all arguments.now)) }
{
    let Some(layout) = code.layouts.functions.get(function as usize) else {
        return Err(Stopped::Undefined(Undefined::MissingResult));
    };
    let depth = machine.depth as u64 + code.frame_of(function) as u64;
    if depth > code.stack as u64 {
        return Err(Stopped::StackExhausted);
    }
    Ok(begin(alloc, layout, machine, depth as u32, arguments)?)
}

/// An activation begins with the objects of a layout.
fn begin<'p>(
    alloc: Global,
    layout: &'p Layout,
    machine: &mut Machine<'p>,
    depth: u32,
    arguments: &[Value],
) -> Result<Here, NoMemory>
    ensures fuel { machine.new.fuel ≡ machine.old.fuel }
    ensures begun { IfOk result (λ here. HasBegun layout.entry.now depth (shown_all arguments.now)
        machine.old machine.new here) }
{
    let Some(number) = machine.activations.checked_add(1) else {
        return Err(beyond_memory());
    };
    let first = layout.first;
    if first >= 1 << 63 {
        return Err(beyond_memory());
    }
    let objects = objects_of(alloc, &layout.plans, arguments)?;
    let level = machine.memory.activations.len();
    machine.memory.begin(Activation {
        number,
        depth,
        first,
        objects,
    })?;
    machine.activations = number;
    machine.depth = depth;
    Ok(Here {
        activation: number,
        depth,
        first,
        level,
    })
}

/// An activation ends: its objects die, and its frame is given back, so that so many bytes of
/// stack are in use (C11 6.2.4, 6.8.6.4).
pub fn leave(machine: &mut Machine, here: Here, depth: u32)
    ensures { IsStep nothing (Ok (tt {0})) machine.old machine.new
        (runs.change (leaving here.activation depth)) }
{
    machine.memory.end(here.activation, here.level);
    machine.depth = depth;
}
