ghost use Rattle.std.specs.Prelude.{◌≡◌, nat_abs, pos};
ghost use Rattle.im_num.specs.Kinds.{wrap};
ghost use Rattle.im_num.specs.declared.kind.Kind.TheVariants.{U8};
ghost use Rattle.im_store.specs.Objects as store;
ghost use Rattle.im_block.specs.Meaning as meaning;
ghost use Rattle.im_serve.specs.Services.{byte_in, byte_out};
ghost use Rattle.im_store.specs.Applied.{Applies};
ghost use Rattle.im_block_run.specs.Shown.{Follows, IsFrame, IsState};

use crate::calls::pay;
use crate::state::{Frame, State};
use crate::stop::Stop;
use crate::values::number_of;
use im_block::Unit;
use im_eval_store::Value;
use im_serve::Service;
use im_store::{Number, Undefined};
use std::alloc::Global;

/// What a service gives that can't do its work.
const MINUS_ONE: Number = Number { value: -1 };

/// A byte as a number.
fn byte_number(byte: u8) -> Number
    ensures { result.value ≡ pos byte }
{
    Number {
        value: byte as i128,
    }
}

/// A number as an `unsigned char`.
#[tactic(auto, unfolding(im_num::specs::Kinds::wrap))]
fn byte_of(number: Number) -> u8
    ensures { result ≡ nat_abs (wrap U8 number.value) }
{
    number.value.rem_euclid(256) as u8
}

/// A service has given a number.
fn give(alloc: Global, unit: &Unit, state: &mut State, to: u32, number: Number) -> Result<(), Stop>
    ensures { (g : meaning.Setting) (s : meaning.State) → IsState state.old s
        → Follows unit.now result state.new (meaning.served unit.now g to (store.Number number.value)
        s.frame.spot.rest s.input s.output s.fuel s) }
{
    state.frame.lose(alloc, unit);
    Ok(state.frame.set(to, Value::Number(number))?)
}

/// The next byte of the input, or -1 at its end (C11 7.21.7.6).
fn get(alloc: Global, unit: &Unit, state: &mut State, to: u32) -> Result<(), Stop>
    ensures { (g : meaning.Setting) (s : meaning.State) → IsState state.old s
        → Follows unit.now result state.new
        (meaning.replies unit.now g to (byte_in s.input s.output) s.frame.spot.rest s.fuel s) }
{
    let Some((byte, rest)) = state.input.split_first() else {
        return give(alloc, unit, state, to, MINUS_ONE);
    };
    let number = byte_number(*byte);
    state.input = rest;
    give(alloc, unit, state, to, number)
}

/// A byte is appended to the output, where that has room, else -1 is given (C11 7.21.7.8).
fn put(
    alloc: Global,
    unit: &Unit,
    capacity: u32,
    state: &mut State,
    to: u32,
    byte: u8,
) -> Result<(), Stop>
    ensures { (g : meaning.Setting) (s : meaning.State) → IsState state.old s
        → g.capacity ≡ capacity → Follows unit.now result state.new
        (meaning.replies unit.now g to (byte_out g.capacity byte s.input s.output) s.frame.spot.rest
        s.fuel s) }
{
    if state.output.len() as u64 >= capacity as u64 {
        return give(alloc, unit, state, to, MINUS_ONE);
    }
    state.output.push(byte)?;
    give(alloc, unit, state, to, byte_number(byte))
}

/// What a service is given: the number of a register, or 0 where it has no parameter.
fn given(frame: &Frame, from: Option<u32>) -> Result<Number, Undefined>
    ensures { (s : meaning.Frame) → IsFrame frame.now s
        → Applies result (meaning.argument from s.registers) }
{
    match from {
        None => Ok(Number::ZERO),
        Some(from) => number_of(frame.register(from)),
    }
}

/// The work of a service.
fn work(
    alloc: Global,
    unit: &Unit,
    capacity: u32,
    state: &mut State,
    to: u32,
    service: Service,
    number: Number,
) -> Result<(), Stop>
    ensures { (g : meaning.Setting) (s : meaning.State) → IsState state.old s
        → g.capacity ≡ capacity → Follows unit.now result state.new
        (meaning.serves unit.now g to service number.value s.frame.spot.rest s.fuel s) }
{
    match service {
        Service::Getchar => get(alloc, unit, state, to),
        Service::Putchar => put(alloc, unit, capacity, state, to, byte_of(number)),
    }
}

/// Calls a service for a unit of fuel, with the number of a register where it has a parameter.
pub(crate) fn serve(
    alloc: Global,
    unit: &Unit,
    capacity: u32,
    state: &mut State,
    to: u32,
    service: Service,
    from: Option<u32>,
) -> Result<(), Stop>
    ensures { (g : meaning.Setting) (s : meaning.State) → IsState state.old s
        → g.capacity ≡ capacity → Follows unit.now result state.new
        (meaning.takes s.fuel s.output (λ fuel.
        meaning.on_checked (meaning.argument from s.frame.registers) (λ z.
        meaning.serves unit.now g to service z s.frame.spot.rest fuel s))) }
{
    pay(state)?;
    let number = given(&state.frame, from)?;
    work(alloc, unit, capacity, state, to, service, number)
}
