ghost use Rattle.std.specs.Prelude.{◌≡◌, IfOk, length, take, drop, slice_get};
ghost use Rattle.std.specs.Option.{option_map};
ghost use Rattle.im_typed.specs.ProgramOf.{access_of};
ghost use Rattle.im_typed.specs.Values as typed_values;
ghost use Rattle.im_eval_store.specs.Shown.{shown};
ghost use Rattle.im_eval_machine.specs.Settings.{AreLayoutsOf};
ghost use Rattle.im_eval_machine.specs.Shown.{shown_all, values};

use crate::code::Code;
use im_eval_store::Value;
use im_num::NoMemory;
use im_typed::Access;
use std::alloc::Global;

/// What an expression gives: the values of its cells.
#[derive(Drop)]
pub enum Found {
    /// Nothing, as of a call of a `void` function.
    Nothing,
    /// A scalar's.
    One(Value),
    /// A struct's, in their order.
    Cells(Vec<Value>),
}

impl Found {
    /// The value of the cell of that number, if there is one.
    pub fn get(&self, number: usize) -> Option<Value>
        ensures { option_map shown result ≡ slice_get (values self.now) number }
    {
        match self {
            Found::Nothing => None,
            Found::One(value) => if number == 0 { Some(*value) } else { None },
            Found::Cells(values) => values.get(number).copied(),
        }
    }
}

/// Those cells of a struct's value that an access has, from one of them on (C11 6.5.2.3).
pub fn part_of(
    alloc: Global,
    code: Code,
    from: u32,
    access: Access,
    found: Found,
) -> Result<Found, NoMemory>
    requires { AreLayoutsOf code.prog.now code.layouts.now }
    ensures { IfOk result (λ part. values part
        ≡ take (length (typed_values.cells_of (access_of code.entry.prog.now.types access)))
        (drop from (values found))) }
{
    match access {
        Access::Scalar(_) => Ok(one_from(&found, from)),
        Access::Struct { number, .. } => {
            let count = code.cells_of(number).len();
            Ok(Found::Cells(cells_from(alloc, &found, from, count)?))
        }
    }
}

/// The cell of that number, if there is one.
fn one_from(found: &Found, from: u32) -> Found
    ensures { values result ≡ take 1 (drop from (values found.now)) }
{
    match found.get(from as usize) {
        None => Found::Nothing,
        Some(value) => Found::One(value),
    }
}

/// So many cells at most, from one of them on.
fn cells_from(alloc: Global, found: &Found, from: u32, count: usize) -> Result<Vec<Value>, NoMemory>
    ensures { IfOk result (λ part. shown_all part.items
        ≡ take count (drop from (values found.now))) }
{
    let mut part = Vec::new(alloc);
    'copy: while part.len() < count {
        match found.get(from as usize + part.len()) {
            None => return Ok(part),
            Some(value) => part.push(value)?,
        }
    }
    Ok(part)
}
