ghost use Rattle.std.specs.Prelude.{◌<◌, ◌-◌, ◌^◌, All, IfOk};
ghost use Rattle.im_block.specs.declared.unit.Function.{Function as BlockFunction};
ghost use Rattle.im_lower_relation.specs.Lowered.{AreSized, IsLowered};
ghost use Rattle.im_lower.specs.Small.{IsSmall};
ghost use Rattle.im_alloc_placed.specs.Apart.{AllUncut};
ghost use Rattle.im_alloc_placed.specs.Placeable.{IsPlaceable};
ghost use Rattle.im_typed.specs.ProgramOf.{program_of};
ghost use Rattle.im_lower_plain.specs.MakeUnit.{AllMade, KnowsTypes};

use crate::builder::sum;
use crate::functions::lower_function;
use crate::lines::small;
use crate::statics::lower_statics;
use im_block::{Function, Unit};
use im_lower_laws::sized_law;
use im_lower_plain::made_law;
use im_num::NoMemory;
use im_typed::{Func, Prog};
use std::alloc::Global;

/// The block code of a program. Its time is linear in the program's size, but that each assignment
/// of a struct to a local looks for the local among the objects of all functions. A number of an
/// object, a register, a block or an access that is too large for its type counts as want of memory.
pub fn lower(alloc: Global, prog: &Prog) -> Result<Unit, NoMemory>
    requires { KnowsTypes prog.now }
    ensures gives { IfOk result (λ unit. IsLowered (program_of prog.now) unit) }
    ensures sized { IfOk result (λ unit. IsSmall (program_of prog.now)
        → AreSized (program_of prog.now) unit) }
    ensures placeable { IfOk result (λ unit. IsSmall (program_of prog.now) → IsPlaceable unit) }
    ensures uncut { IfOk result (λ unit. IsSmall (program_of prog.now) → AllUncut unit) }
    ensures told { IfOk result (λ unit.
        All (λ (f : BlockFunction). f.need < 2 ^ 64 - 1) unit.functions.items) }
{
    made_law();
    sized_law();
    let statics = lower_statics(alloc, &prog.statics, &prog.types)?;
    let functions = lower_functions(alloc, prog)?;
    Ok(Unit {
        statics,
        functions,
        main: prog.main,
    })
}

/// The functions of a program in order.
fn lower_functions(alloc: Global, prog: &Prog) -> Result<Vec<Function>, NoMemory>
    requires { KnowsTypes prog.now }
    ensures { IfOk result (λ made. AllMade prog.now made.items) }
{
    let mut made = Vec::new(alloc);
    let mut first = small(prog.statics.len() as u64)?;
    let mut accesses = 0;
    let main = prog.main as usize;
    for (number, func) in prog.funcs.iter().enumerate() {
        let (function, next) = lower_function(alloc, func, number == main, prog, first, accesses)?;
        made.push(function)?;
        first = sum(first, small(func.objects.len() as u64)?)?;
        accesses = next;
    }
    Ok(made)
}
