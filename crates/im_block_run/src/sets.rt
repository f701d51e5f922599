ghost use Rattle.im_store.specs.Checks.{Checked, Fine};
ghost use Rattle.im_store.specs.Objects as store;
ghost use Rattle.im_block.specs.Meaning as meaning;
ghost use Rattle.im_block.specs.declared.unit.Unit as blocks;
ghost use Rattle.im_eval_store.specs.Shown.{Checks};
ghost use Rattle.im_block_run.specs.Shown.{Follows, IsState};

use crate::places::place_of;
use crate::start::small;
use crate::state::State;
use crate::stop::Stop;
use crate::values::{compared, computed, computed_one, converted, distance, moved, negation};
use im_block::Place;
use im_eval_store::Value;
use im_num::Kind;
use im_store::{BinaryOp, Comparison, UnaryOp, Undefined};

// Each function here puts into a register what its line computes.

/// What was computed, or the cause for there being nothing.
pub(crate) fn computes(
    state: &mut State,
    to: u32,
    value: Result<Value, Undefined>,
) -> Result<(), Stop>
    ensures { (u : blocks.Unit) (c : Checked store.Value) (s : meaning.State)
        → IsState state.old s → Checks value c
        → Follows u result state.new (meaning.computes to c s.frame.spot.rest s) }
{
    let value = value?;
    state.frame.set(to, value)?;
    Ok(())
}

/// A constant, where it is one that the operators take.
pub(crate) fn put(state: &mut State, to: u32, number: i128) -> Result<(), Stop>
    ensures { (u : blocks.Unit) (s : meaning.State)
        → IsState state.old s → Follows u result state.new
        (meaning.computes to (Fine (store.Number number)) s.frame.spot.rest s) }
{
    match small(number) {
        None => Err(Stop::Beyond),
        Some(value) => computes(state, to, Ok(value)),
    }
}

/// Another register.
pub(crate) fn copy(state: &mut State, to: u32, from: u32) -> Result<(), Stop>
    ensures { (u : blocks.Unit) (s : meaning.State)
        → IsState state.old s → Follows u result state.new
        (meaning.computes to (Fine (s.frame.registers from)) s.frame.spot.rest s) }
{
    let value = state.frame.register(from);
    computes(state, to, Ok(value))
}

/// A conversion (C11 6.3.1.3).
pub(crate) fn convert(state: &mut State, to: u32, kind: Kind, from: u32) -> Result<(), Stop>
    ensures { (u : blocks.Unit) (s : meaning.State)
        → IsState state.old s → Follows u result state.new
        (meaning.computes to (meaning.as_number (meaning.converted kind (s.frame.registers
        from))) s.frame.spot.rest s) }
{
    let value = state.frame.register(from);
    computes(state, to, converted(kind, value))
}

/// An operator on one number (C11 6.5.3.3).
pub(crate) fn unary(
    state: &mut State,
    to: u32,
    op: UnaryOp,
    kind: Kind,
    from: u32,
) -> Result<(), Stop>
    ensures { (u : blocks.Unit) (s : meaning.State)
        → IsState state.old s → Follows u result state.new
        (meaning.computes to (meaning.as_number (meaning.computed_one op kind (s.frame.registers
        from))) s.frame.spot.rest s) }
{
    let value = state.frame.register(from);
    computes(state, to, computed_one(op, kind, value))
}

/// Whether a value fails as a condition (C11 6.5.3.3).
pub(crate) fn negate(state: &mut State, to: u32, from: u32) -> Result<(), Stop>
    ensures { (u : blocks.Unit) (s : meaning.State)
        → IsState state.old s → Follows u result state.new
        (meaning.computes to (meaning.as_truth (meaning.negation s.store (s.frame.registers
        from))) s.frame.spot.rest s) }
{
    let value = state.frame.register(from);
    let result = negation(&state.memory, value);
    computes(state, to, result)
}

/// An operator on two numbers (C11 6.5.5 to 6.5.12).
pub(crate) fn compute(
    state: &mut State,
    to: u32,
    op: BinaryOp,
    kind: Kind,
    left: u32,
    right: u32,
) -> Result<(), Stop>
    ensures { (u : blocks.Unit) (s : meaning.State)
        → IsState state.old s → Follows u result state.new
        (meaning.computes to (meaning.as_number (meaning.computed op kind (s.frame.registers
        left) (s.frame.registers right))) s.frame.spot.rest s) }
{
    let a = state.frame.register(left);
    let b = state.frame.register(right);
    computes(state, to, computed(op, kind, a, b))
}

/// A comparison (C11 6.5.8, 6.5.9).
pub(crate) fn compare(
    state: &mut State,
    to: u32,
    op: Comparison,
    kind: Kind,
    left: u32,
    right: u32,
) -> Result<(), Stop>
    ensures { (u : blocks.Unit) (s : meaning.State)
        → IsState state.old s → Follows u result state.new
        (meaning.computes to (meaning.as_truth (meaning.compared s.store op kind
        (s.frame.registers left) (s.frame.registers right))) s.frame.spot.rest s) }
{
    let a = state.frame.register(left);
    let b = state.frame.register(right);
    let result = compared(&state.memory, op, kind, a, b);
    computes(state, to, result)
}

/// A pointer moved by elements (C11 6.5.6p8).
pub(crate) fn move_by(
    state: &mut State,
    to: u32,
    size: u32,
    back: bool,
    pointer: u32,
    by: u32,
) -> Result<(), Stop>
    ensures { (u : blocks.Unit) (s : meaning.State)
        → IsState state.old s → Follows u result state.new
        (meaning.computes to (meaning.moved s.store size back (s.frame.registers pointer)
        (s.frame.registers by)) s.frame.spot.rest s) }
{
    let a = state.frame.register(pointer);
    let b = state.frame.register(by);
    let result = moved(&state.memory, size, back, a, b);
    computes(state, to, result)
}

/// The elements between two pointers (C11 6.5.6p9).
pub(crate) fn subtract(
    state: &mut State,
    to: u32,
    size: u32,
    left: u32,
    right: u32,
) -> Result<(), Stop>
    ensures { (u : blocks.Unit) (s : meaning.State)
        → IsState state.old s → Follows u result state.new
        (meaning.computes to (meaning.as_number (meaning.distance_of s.store size
        (s.frame.registers left) (s.frame.registers right))) s.frame.spot.rest s) }
{
    let a = state.frame.register(left);
    let b = state.frame.register(right);
    let result = distance(&state.memory, size, a, b);
    computes(state, to, result)
}

/// The address of a place (C11 6.5.3.2).
pub(crate) fn address(state: &mut State, to: u32, place: Place) -> Result<(), Stop>
    ensures { (u : blocks.Unit) (s : meaning.State)
        → IsState state.old s → Follows u result state.new
        (meaning.computes to (meaning.place_of place s.frame.active s.frame.registers s.store)
        s.frame.spot.rest s) }
{
    let result = place_of(&state.memory, &state.frame, place);
    computes(state, to, result)
}
