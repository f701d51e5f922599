ghost use Rattle.std.specs.Prelude.{◌≡◌, if◌then◌else◌};
ghost use Rattle.im_block.specs.Meaning as meaning;
ghost use Rattle.im_block.specs.declared.unit.Unit as blocks;
ghost use Rattle.im_eval_store.specs.Shown.{shown};
ghost use Rattle.im_block_run.specs.Laid.{AreLaidOut};
ghost use Rattle.im_block_run.specs.Shown.{Follows, IsFrame, IsState, Takes, setting_of};

use crate::calls::pay;
use crate::code::Code;
use crate::lines::perform;
use crate::state::{Frame, State};
use crate::stop::Stop;
use crate::values::{condition, number_of};
use im_block::{Exit, Line};
use im_eval_store::Value;
use im_num::Kind;
use im_store::{Undefined, converted};
use std::alloc::Global;

/// To the start of a block.
fn go_to<'u>(code: Code<'u>, state: &mut State<'u>, block: u32) -> Result<(), Stop>
    ensures { (s : meaning.State) → IsState state.old s → Follows code.entry.unit.now result state.new
        (meaning.goes_to code.entry.unit.now (setting_of code.entry.setting) block s.fuel s) }
{
    let Some(function) = code.unit.functions.get(state.frame.function as usize) else {
        return Err(Stop::Undefined(Undefined::MissingResult));
    };
    let Some(found) = function.blocks.get(block as usize) else {
        return Err(Stop::Undefined(Undefined::MissingResult));
    };
    state.frame.lines = &found.lines;
    state.frame.exit = found.exit;
    Ok(())
}

/// What an activation returns.
fn returned(frame: &Frame, from: Option<u32>) -> Value
    ensures { (u : blocks.Unit) (g : meaning.Setting) (s : meaning.Frame) → IsFrame frame.now s
        → meaning.returned u g from s.registers ≡ shown result }
{
    match from {
        None => Value::Unset,
        Some(register) => frame.register(register),
    }
}

/// Back to a caller; from the first activation the run ends.
fn back(state: &mut State, value: Value) -> Result<(), Stop>
    ensures { (u : blocks.Unit) (g : meaning.Setting) (s : meaning.State) → IsState state.old s
        → Follows u result state.new (meaning.back u g s.callers (shown value) s) }
{
    match state.callers.pop() {
        None => {
            let number = number_of(value)?;
            Err(Stop::Returned(converted(Kind::I32, number)))
        }
        Some(caller) => {
            let level = state.callers.len() + 2;
            state.memory.end(state.frame.number, level);
            state.frame = caller;
            let to = state.frame.to;
            Ok(state.frame.set(to, value)?)
        }
    }
}

/// One block or the other.
fn chosen(test: bool, holds: u32, fails: u32) -> u32
    ensures { result ≡ (if test then holds else fails) }
{
    if test { holds } else { fails }
}

/// How a block ends.
fn leave<'u>(code: Code<'u>, state: &mut State<'u>) -> Result<(), Stop>
    ensures { let u = code.entry.unit.now in (s : meaning.State) → IsState state.old s
        → Follows u result state.new (meaning.leaves u (setting_of code.entry.setting)
        s.frame.spot.exit s) }
{
    match state.frame.exit {
        Exit::Jump(block) => go_to(code, state, block),
        Exit::Turn(block) => {
            pay(state)?;
            go_to(code, state, block)
        }
        Exit::Branch { on, holds, fails } => {
            let test = condition(&state.memory, state.frame.register(on))?;
            go_to(code, state, chosen(test, holds, fails))
        }
        Exit::Return(from) => {
            let value = returned(&state.frame, from);
            back(state, value)
        }
    }
}

/// The next line, which is taken from those that are left.
fn next_line(frame: &mut Frame) -> Option<Line>
    ensures { (s : meaning.Frame) → IsFrame frame.old s → Takes result frame.new s }
{
    let Some((line, rest)) = frame.lines.split_first() else {
        return None;
    };
    let line = *line;
    frame.lines = rest;
    Some(line)
}

/// One line, or the end of a block.
pub(crate) fn step<'u>(alloc: Global, code: Code<'u>, state: &mut State<'u>) -> Result<(), Stop>
    requires { AreLaidOut code.unit.now code.layouts.now }
    ensures { let u = code.entry.unit.now in (s : meaning.State) → IsState state.old s
        → Follows u result state.new (meaning.step u (setting_of code.entry.setting) s) }
{
    match next_line(&mut state.frame) {
        None => leave(code, state),
        Some(line) => perform(alloc, code, state, line),
    }
}
