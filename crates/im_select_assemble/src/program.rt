ghost use Rattle.std.specs.Prelude.{◌≡◌, IfOk};
ghost use Rattle.im_select_assemble.specs.Assembled.{IsAssemblable, IsAssembled};

use crate::functions::push_functions;
use crate::runtime::{push_start, runtime_parts};
use im_block::{Static, Unit};
use im_frame::Layout;
use im_link::Linker;
use im_num::NoMemory;
use std::alloc::Global;

/// Where the objects of a unit of placed code lie, and what its functions are called.
#[derive(Clone, Copy)]
pub struct Program<'a> {
    /// The layout of each function's frame.
    pub layouts: &'a [Layout],
    /// The address of each static.
    pub statics: &'a [u32],
    /// The name of each function.
    pub names: &'a [String],
}

/// A program's parts in a linker, and the statics of its unit.
#[derive(Drop)]
pub struct Assembled {
    pub linker: Linker,
    pub statics: Vec<Static>,
}

/// Puts the parts of a program's code into a linker, in order: recovery, the checkpoint, the
/// routines, the functions, and the lines that begin. Each function is given back once its part is
/// there.
pub fn assemble(alloc: Global, unit: Unit, program: &Program) -> Result<Assembled, NoMemory>
    requires { IsAssemblable unit program.now }
    ensures statics { IfOk result (λ assembled. assembled.statics ≡ unit.statics) }
    ensures parts { IfOk result (λ assembled. IsAssembled unit program.now assembled.linker) }
{
    let Unit {
        statics,
        functions,
        main,
    } = unit;
    let mut linker = runtime_parts(alloc)?;
    push_functions(alloc, &mut linker, functions, program)?;
    push_start(alloc, &mut linker, main)?;
    Ok(Assembled { linker, statics })
}
