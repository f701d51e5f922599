ghost use Rattle.std.specs.Prelude.{ℕ, MatchResult, Option};
ghost use Rattle.im_typed.specs.declared.program.Prog.{Prog as TypedProgram};
ghost use Rattle.im_compile.specs.Faults.{IsFrameFault};
ghost use Rattle.im_compile.specs.Made.{IsMade, IsSetOut};
ghost use Rattle.im_compile.specs.Passed.{IsSource};

use crate::fault::CompileFault;
use crate::frames::{frames_of, layouts_of};
use crate::laws::ready_law;
use crate::making::Made;
use crate::texts::texts_of;
use im_block::Static;
use im_link::Linker;
use im_select_addresses::place_statics;
use im_select_assemble::{Program, assemble};
use im_typed::Frames;
use std::alloc::Global;

/// The parts of made code in a linker, and what else its image needs.
#[derive(Drop)]
pub struct Unlinked {
    /// The runtime's parts and those of the functions, whose labels have no places yet.
    pub linker: Linker,
    /// The objects that live as long as the program, with their first values.
    pub statics: Vec<Static>,
    /// The address of each static.
    pub addresses: Vec<u32>,
    /// The bytes of each function's frame, by its name.
    pub frames: Frames,
}

/// Lays out the frames of made code, gives its statics their places, and puts its parts into a
/// linker. Of `CompileFault` it gives `Frame`, for the first function of this code whose frame has
/// more than 65536 bytes, and `OutOfMemory`.
pub fn set_out(alloc: Global, made: Made) -> Result<Unlinked, CompileFault>
    requires { (prog : TypedProgram) × (max_gap : Option ℕ) × IsSource prog
        × IsMade prog max_gap made }
    ensures { MatchResult result (IsSetOut made) (IsFrameFault made.unit.functions.items) }
{
    ready_law();
    let Made { unit, names } = made;
    let layouts = layouts_of(alloc, &unit.functions)?;
    let addresses = place_statics(alloc, &unit.statics)?;
    let texts = texts_of(alloc, &names)?;
    let frames = frames_of(alloc, &names, &layouts)?;
    let program = Program {
        layouts: &layouts,
        statics: &addresses,
        names: &texts,
    };
    let assembled = assemble(alloc, unit, &program)?;
    Ok(Unlinked {
        linker: assembled.linker,
        statics: assembled.statics,
        addresses,
        frames,
    })
}
