ghost use Rattle.std.specs.Prelude.{◌≡◌, ◌++◌, IfOk, OnOk, map};
ghost use Rattle.im_typed.specs.Meaning as meaning;
ghost use Rattle.im_typed.specs.ProgramOf.{piece_of};
ghost use Rattle.im_eval_machine.specs.Activations.{local_in};
ghost use Rattle.im_eval_machine.specs.Initials.{given_by, offsets_from};
ghost use Rattle.im_eval_machine.specs.Settings.{AreLayoutsOf};
ghost use Rattle.im_eval_machine.specs.Shown.{IsStep, nothing};

use crate::code::Code;
use crate::here::Here;
use crate::machine::Machine;
use im_ctype::Cell;
use im_num::{NoMemory, beyond_memory};
use im_typed::{Access, Piece};
use std::alloc::Global;

/// The offsets of the cells that a piece gives, behind those of the pieces before it.
fn push_given(code: Code, piece: &Piece, given: &mut Vec<u64>) -> Result<(), NoMemory>
    requires { AreLayoutsOf code.prog.now code.layouts.now }
    ensures { OnOk result (given.new.items
        ≡ given.old.items ++ given_by code.entry.prog.now.types piece.now) }
{
    match piece.access {
        Access::Scalar(_) => Ok(given.push(piece.offset as u64)?),
        Access::Struct { number, .. } => {
            push_offsets(given, piece.offset, code.cells_of(number))
        }
    }
}

/// The offsets of these cells, so many bytes further on.
fn push_offsets(given: &mut Vec<u64>, by: u32, cells: &[Cell]) -> Result<(), NoMemory>
    ensures { OnOk result (given.new.items ≡ given.old.items ++ offsets_from by cells.now) }
{
    for cell in cells {
        let Some(offset) = (by as u64).checked_add(cell.offset) else {
            return Err(beyond_memory());
        };
        given.push(offset)?;
    }
    Ok(())
}

/// The offsets in bytes of the cells that expressions of an initialiser give (C11 6.7.9p19).
pub fn given_offsets(alloc: Global, code: Code, pieces: &[Piece]) -> Result<Vec<u64>, NoMemory>
    requires { AreLayoutsOf code.prog.now code.layouts.now }
    ensures { IfOk result (λ given. given.items
        ≡ meaning.given_offsets (map (piece_of code.entry.prog.now.types) pieces.now)) }
{
    let mut given = Vec::new(alloc);
    for piece in pieces {
        push_given(code, piece, &mut given)?;
    }
    Ok(given)
}

/// A declaration is reached: its object has no value in any cell (C11 6.2.4p6).
pub fn forget(machine: &mut Machine, here: Here, local: u32)
    ensures { IsStep nothing (Ok (tt {0})) machine.old machine.new
        (meaning.change_store (meaning.forgotten (local_in here local))) }
{
    machine.memory.forget(here.local(local), here.level);
}

/// The cells of a local but for those at these offsets become zero or null (C11 6.7.9p21).
pub fn clear(machine: &mut Machine, here: Here, local: u32, given: &[u64])
    ensures { IsStep nothing (Ok (tt {0})) machine.old machine.new
        (meaning.change_store (meaning.cleared given.now (local_in here local))) }
{
    machine.memory.clear(here.local(local), here.level, given);
}
