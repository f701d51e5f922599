ghost use Rattle.std.specs.Prelude.{◌≡◌, IfOk};
ghost use Rattle.im_typed.specs.declared.program.Prog.{Prog as TypedProgram};
ghost use Rattle.im_compile.specs.Lowered.{IsLoweredCode, IsLoweredFrom};
ghost use Rattle.im_compile.specs.Made.{AreNamesOf};
ghost use Rattle.im_compile.specs.Passed.{IsPassed, IsSource};
ghost use Rattle.im_recut.specs.Recut.{IsGapLimit};

use im_alias::alias;
use im_alloc::place;
use im_alloc_laws::placed_code_law;
use im_alloc_placed::cuts_keep_places_law;
use im_block::{Unit, added_cuts_law};
use im_block_laws::cuts_keep_code_law;
use im_force::{force, force_keeps_law};
use im_forward::{in_registers, registers_law};
use im_lower::lower;
use im_lower_relation::lowered_form_law;
use im_num::NoMemory;
use im_recut::recut;
use im_typed::{Func, Prog};
use std::alloc::Global;

/// Block code of a program.
#[derive(Drop)]
pub(crate) struct Lowered {
    pub unit: Unit,
    /// The name of each function.
    pub names: Vec<Vec<u8>>,
}

/// The names of functions, in their order.
fn function_names(alloc: Global, funcs: &[Func]) -> Result<Vec<Vec<u8>>, NoMemory>
    ensures { IfOk result (λ names. AreNamesOf funcs.now names.items) }
{
    let mut names = Vec::new(alloc);
    for func in funcs {
        names.push(Vec::from_slice(alloc, &func.name)?)?;
    }
    Ok(names)
}

/// The program as block code.
pub(crate) fn lowered_code(alloc: Global, prog: &Prog) -> Result<Lowered, NoMemory>
    requires { IsSource prog.now }
    ensures { IfOk result (IsLoweredFrom prog.now) }
{
    let unit = lower(alloc, prog)?;
    let names = function_names(alloc, &prog.funcs)?;
    Ok(Lowered { unit, names })
}

/// Block code as placed code with all its cuts.
pub(crate) fn placed_code(
    alloc: Global,
    lowered: Unit,
    max_gap: Option<u32>,
) -> Result<Unit, NoMemory>
    requires source { (prog : TypedProgram) × IsSource prog × IsLoweredCode prog lowered }
    requires limit { IsGapLimit max_gap }
    ensures { (prog : TypedProgram) → IsLoweredCode prog lowered
        → IfOk result (IsPassed prog max_gap) }
{
    lowered_form_law();
    registers_law();
    added_cuts_law();
    force_keeps_law();
    cuts_keep_code_law();
    cuts_keep_places_law();
    placed_code_law();
    let forwarded = in_registers(alloc, lowered)?;
    let forced = force(alloc, forwarded)?;
    let tags = alias(alloc, &forced)?;
    let placed = place(alloc, forced)?;
    let code = recut(alloc, placed, &tags, max_gap)?;
    Ok(code)
}
