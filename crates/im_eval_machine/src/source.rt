ghost use Rattle.std.specs.Prelude.{◌≡◌, ◌+◌};
ghost use Rattle.im_num.specs.Kinds.{kind_size};
ghost use Rattle.im_typed.specs.ProgramOf.{access_of};
ghost use Rattle.im_typed.specs.Values as typed_values;
ghost use Rattle.im_eval_store.specs.Shown.{shown};
ghost use Rattle.im_eval_machine.specs.Settings.{AreLayoutsOf};
ghost use Rattle.im_eval_machine.specs.Shown.{IsLook, values};
ghost use Rattle.im_eval_machine.specs.Steps.{read_for};

use crate::access::read_at;
use crate::code::Code;
use crate::found::Found;
use crate::machine::Machine;
use crate::stopped::Stopped;
use im_ctype::{Cell, bytes_of_kind};
use im_eval_store::Value;
use im_store::Undefined;
use im_typed::Access;
use std::alloc::Global;

/// What stands at a place, to be stored at `target`, unless both overlap in part (C11 6.5.16.1p3).
pub fn read_for(
    alloc: Global,
    code: Code,
    machine: &Machine,
    access: Access,
    target: Value,
    from: Value,
) -> Result<Found, Stopped>
    requires { AreLayoutsOf code.prog.now code.layouts.now }
    ensures { IsLook values result machine.now (read_for
        (access_of code.entry.prog.now.types access) (shown target) (shown from)) }
{
    if target.overlaps_in_part(extent_of(code, access), from) {
        return Err(Stopped::Undefined(Undefined::PartialOverlap));
    }
    read_at(alloc, code, machine, access, from)
}

/// The bytes from a place to the end of an access's cells there.
fn extent_of(code: Code, access: Access) -> u128
    requires { AreLayoutsOf code.prog.now code.layouts.now }
    ensures { result ≡ typed_values.extent
        (typed_values.cells_of (access_of code.entry.prog.now.types access)) }
{
    match access {
        Access::Scalar(kind) => bytes_of_kind(kind) as u128,
        Access::Struct { number, .. } => extent(code.cells_of(number)),
    }
}

/// The bytes from a struct's start to the end of its cells.
fn extent(cells: &[Cell]) -> u128
    ensures { result ≡ typed_values.extent cells.now }
{
    let mut end = 0;
    for cell in cells {
        end = end_of(*cell).max(end);
    }
    end
}

/// Where a cell ends, in bytes from its struct's start.
fn end_of(cell: Cell) -> u128
    ensures { result ≡ cell.offset + kind_size cell.kind }
{
    cell.offset as u128 + bytes_of_kind(cell.kind) as u128
}
