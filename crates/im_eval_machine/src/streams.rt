ghost use Rattle.std.specs.Prelude.{◌≡◌, nat_abs, pos, ℕ, ℤ};
ghost use Rattle.im_num.specs.Kinds.{wrap};
ghost use Rattle.im_num.specs.declared.kind.Kind.TheVariants.{U8};
ghost use Rattle.im_serve.specs.declared.service.Service.TheVariants.{Getchar, Putchar};
ghost use Rattle.im_typed.specs.Meaning.{served};
ghost use Rattle.im_typed.specs.Runs.{with_fuel};
ghost use Rattle.im_eval_machine.specs.Shown.{IsStep, number_shown};

use crate::machine::{Machine, pay};
use crate::stopped::Stopped;
use im_serve::Service;
use im_store::Number;

/// What a service gives that can't do its work.
const MINUS_ONE: Number = Number { value: -1 };

/// A service does its work for a unit of fuel, and gives a number. `argument` is 0 where it has no
/// parameter, and `capacity` is that of the output in bytes.
pub fn serve(
    machine: &mut Machine,
    capacity: u32,
    service: Service,
    argument: Number,
) -> Result<Number, Stopped>
    ensures { IsStep number_shown result machine.old machine.new
        (with_fuel (served capacity service argument.value)) }
{
    pay(machine)?;
    work(machine, capacity, service, argument)
}

/// The work of a service.
fn work(
    machine: &mut Machine,
    capacity: u32,
    service: Service,
    argument: Number,
) -> Result<Number, Stopped>
    ensures { IsStep number_shown result machine.old machine.new
        (served capacity service argument.value) }
{
    match service {
        Service::Getchar => Ok(next_byte(machine)),
        Service::Putchar => put_byte(machine, capacity, byte_of(argument)),
    }
}

/// The next byte of input is taken from it, or -1 at its end (C11 7.21.7.6).
fn next_byte(machine: &mut Machine) -> Number
    ensures { (capacity : ℕ) (z : ℤ) → IsStep number_shown (Ok result) machine.old machine.new
        (served capacity Getchar z) }
{
    let Some((byte, rest)) = machine.input.split_first() else {
        return MINUS_ONE;
    };
    let number = byte_number(*byte);
    machine.input = rest;
    number
}

/// A byte as a number.
fn byte_number(byte: u8) -> Number
    ensures { result.value ≡ pos byte }
{
    Number {
        value: byte as i128,
    }
}

#[tactic(auto, unfolding(im_num::specs::Kinds::wrap))]
fn byte_of(number: Number) -> u8
    ensures { result ≡ nat_abs (wrap U8 number.value) }
{
    number.value.rem_euclid(256) as u8
}

/// A byte is written behind the output where there is room, and comes back, else -1 (C11 7.21.7.8).
fn put_byte(machine: &mut Machine, capacity: u32, byte: u8) -> Result<Number, Stopped>
    ensures { (z : ℤ) → byte ≡ nat_abs (wrap U8 z) → IsStep number_shown result machine.old
        machine.new (served capacity Putchar z) }
{
    if machine.output.len() as u64 >= capacity as u64 {
        return Ok(MINUS_ONE);
    }
    machine.output.push(byte)?;
    Ok(byte_number(byte))
}
