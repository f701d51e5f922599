ghost use Rattle.std.specs.Prelude.{◌≡◌, ◌<◌, ◌∷◌, ℕ, List, IfOk, OnOk};
ghost use Rattle.im_store.specs.Objects as store;
ghost use Rattle.im_store.specs.Objects.{Store};
ghost use Rattle.im_block.specs.Meaning as meaning;
ghost use Rattle.im_block.specs.declared.unit.Unit as blocks;
ghost use Rattle.im_eval_store.specs.Living.{Holds};
ghost use Rattle.im_eval_machine.specs.Fresh.{AreFresh};
ghost use Rattle.im_eval_machine.specs.Settings.{ArePlans};
ghost use Rattle.im_block_run.specs.Entered.{Enters, Pays};
ghost use Rattle.im_block_run.specs.Laid.{AreLaidOut, object_shapes};
ghost use Rattle.im_block_run.specs.Shown.{Follows, IsFrame, IsRunning, IsState, plain, setting_of};

use crate::code::Code;
use crate::registers::passed;
use crate::state::{Frame, State};
use crate::stop::Stop;
use im_block::{Block, Function, Unit};
use im_eval_store::{Activation, Live, Memory, Plan};
use im_num::NoMemory;
use im_store::Undefined;
use std::alloc::Global;
use std::mem;

/// A call of a function of the unit, by its number, with `count` arguments that stand side by side
/// from the register `first` on; its result comes into the register `to`.
#[derive(Clone, Copy)]
pub(crate) struct Callee {
    pub to: u32,
    pub function: u32,
    pub first: u32,
    pub count: u32,
}

/// Takes a unit of fuel.
pub(crate) fn pay(state: &mut State) -> Result<(), Stop>
    ensures { (u : blocks.Unit) (s : meaning.State) (go : ℕ → meaning.Next) → IsState state.old s
        → Pays u result state.new s go }
{
    if state.fuel == 0 {
        return Err(Stop::MoreFuel);
    }
    state.fuel -= 1;
    Ok(())
}

/// New objects of these plans, without values.
fn objects_of<'p>(alloc: Global, plans: &'p [Plan]) -> Result<Vec<Live<'p>>, NoMemory>
    ensures { IfOk result (λ objects. AreFresh plans.entry.now (λ k i. store.Unset) objects.items) }
{
    let mut objects = Vec::new(alloc);
    for plan in plans {
        objects.push(Live::new(alloc, plan)?)?;
    }
    Ok(objects)
}

/// The objects of an activation that begins live.
fn begin<'u>(
    alloc: Global,
    memory: &mut Memory<'u>,
    function: &Function,
    plans: &'u [Plan],
    number: u64,
    depth: u32,
) -> Result<(), NoMemory>
    requires { ArePlans (object_shapes function.now.objects.items) plans.now }
    ensures { OnOk result ((last : ℕ) (store : Store) → last < number
        → Holds memory.old last (plain store) → Holds memory.new number (plain
        (meaning.begun_by function.now (record { number = number; depth = depth }) store))) }
{
    let objects = objects_of(alloc, plans)?;
    memory.begin(Activation {
        number,
        depth,
        first: function.first_object as u64,
        objects,
    })?;
    Ok(())
}

/// The frame of an activation that begins with these arguments.
fn framed<'u>(
    alloc: Global,
    function: &Function,
    block: &'u Block,
    caller: &Frame,
    call: Callee,
    number: u64,
    depth: u32,
) -> Result<Frame<'u>, NoMemory>
    ensures { IfOk result (λ frame. (s : meaning.Frame) → IsFrame caller.now s → IsFrame frame
        (record {
          function = call.function;
          spot = meaning.at_block function.now.entry block.entry.now;
          active = record { number = number; depth = depth };
          registers
              = meaning.passed function.now.first_parameter call.first call.count s.registers;
          to = 0;
        })) }
{
    let to = function.first_parameter;
    let registers = passed(alloc, &caller.registers, to, call.first, call.count)?;
    Ok(Frame {
        function: call.function,
        lines: &block.lines,
        exit: block.exit,
        number,
        depth,
        registers,
        to: 0,
    })
}

/// A function is entered, where its frame has room (C11 6.2.4, 6.5.2.2).
pub(crate) fn enter<'u>(
    alloc: Global,
    code: Code<'u>,
    memory: &mut Memory<'u>,
    caller: &Frame,
    begun: u64,
    call: Callee,
) -> Result<Frame<'u>, Stop>
    requires { AreLaidOut code.unit.now code.layouts.now }
    ensures { let u = code.entry.unit.now in (s : meaning.State) (callers : List meaning.Frame)
        (fuel : ℕ) → IsFrame caller.now s.frame → Holds memory.old begun (plain s.store)
        → s.begun ≡ begun → Enters u result memory.new callers fuel s (meaning.enters u
        (setting_of code.entry.setting) call.function call.first call.count s.frame.registers
        callers fuel s) }
{
    let Some(function) = code.unit.functions.get(call.function as usize) else {
        return Err(Stop::Undefined(Undefined::MissingResult));
    };
    let depth = caller.depth as u64 + code.setting.frame_of(call.function) as u64;
    if depth > code.setting.stack as u64 {
        return Err(Stop::StackExhausted);
    }
    let depth = depth as u32;
    let Some(block) = function.blocks.get(function.entry as usize) else {
        return Err(Stop::Undefined(Undefined::MissingResult));
    };
    let Some(plans) = code.layouts.functions.get(call.function as usize) else {
        return Err(Stop::Beyond);
    };
    let Some(number) = begun.checked_add(1) else {
        return Err(Stop::Beyond);
    };
    let frame = framed(alloc, function, block, caller, call, number, depth)?;
    begin(alloc, memory, function, plans, number, depth)?;
    Ok(frame)
}

/// The activation that runs waits for one that has begun.
fn wait<'u>(
    alloc: Global,
    unit: &Unit,
    state: &mut State<'u>,
    frame: Frame<'u>,
    to: u32,
) -> Result<(), NoMemory>
    ensures memory { state.new.memory ≡ state.old.memory }
    ensures begun { state.new.begun ≡ frame.entry.number }
    ensures running { OnOk result ((g : meaning.Setting) (s t : meaning.State)
        → IsRunning state.old s → IsFrame frame.entry t.frame
        → t.callers ≡ meaning.waiting unit.now g s.frame to s.frame.spot.rest ∷ s.callers
        → t.input ≡ s.input → t.output ≡ s.output → t.fuel ≡ s.fuel → IsRunning state.new t) }
{
    state.frame.lose(alloc, unit);
    state.frame.to = to;
    state.begun = frame.number;
    let caller = mem::replace(&mut state.frame, frame);
    state.callers.push(caller)?;
    Ok(())
}

/// A function is called.
pub(crate) fn call<'u>(
    alloc: Global,
    code: Code<'u>,
    state: &mut State<'u>,
    call: Callee,
) -> Result<(), Stop>
    requires { AreLaidOut code.unit.now code.layouts.now }
    ensures { let u = code.entry.unit.now in (s : meaning.State) → IsState state.old s
        → Follows u result state.new (meaning.takes s.fuel s.output (λ fuel. meaning.enters u
        (setting_of code.entry.setting) call.function call.first call.count s.frame.registers
        (meaning.waiting u (setting_of code.entry.setting) s.frame call.to s.frame.spot.rest
        ∷ s.callers) fuel s)) }
{
    pay(state)?;
    let begun = state.begun;
    let frame = enter(alloc, code, &mut state.memory, &state.frame, begun, call)?;
    wait(alloc, code.unit, state, frame, call.to)?;
    Ok(())
}
