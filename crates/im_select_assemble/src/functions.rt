ghost use Rattle.std.specs.Prelude.{◌≡◌, ◌<◌, ◌+◌, ◌^◌, length, OnOk, IfOk};
ghost use Rattle.im_block.specs.declared.unit.Unit.{Unit as Code};
ghost use Rattle.im_link.specs.Linking.{Grows};
ghost use Rattle.im_select.specs.Emitted.{entry_label};
ghost use Rattle.im_select.specs.Given.{given};
ghost use Rattle.im_select.specs.Selects.{IsSelectable};
ghost use Rattle.im_select_assemble.specs.Assembled.{IsAssemblable, AddsSelection};
ghost use Rattle.im_select_assemble.specs.Assembled.{AddsNamedFunctions};

use crate::program::Program;
use crate::runtime::push_part;
use im_block::Function;
use im_link::Linker;
use im_num::{NoMemory, beyond_memory};
use im_rtlib::FIRST_FREE;
use im_select::{Names, select};
use std::alloc::Global;

/// The sum of a label and a number of blocks, where labels have 32 bits.
fn label_behind(label: u32, blocks: usize) -> Result<u32, NoMemory>
    ensures value { IfOk result (λ next. next ≡ label + blocks) }
    ensures fits { IfOk result (λ next. next < 2 ^ 32) }
{
    match u32::try_from(u64::from(label).saturating_add(blocks as u64)) {
        Ok(next) => Ok(next),
        Err(_) => Err(beyond_memory()),
    }
}

/// Adds a function's part.
fn push_function(
    alloc: Global,
    linker: &mut Linker,
    names: &Names,
    number: u32,
    name: &str,
) -> Result<(), NoMemory>
    requires { IsSelectable (given names.now) number }
    ensures { OnOk result
        (Grows linker.old linker.new (AddsSelection (given names.now) number name.now)) }
{
    let lines = select(alloc, names, number)?;
    push_part(alloc, linker, name, lines)?;
    Ok(())
}

/// Adds the parts of all functions. Each function is given back once its part is there.
pub(crate) fn push_functions(
    alloc: Global,
    linker: &mut Linker,
    functions: Vec<Function>,
    program: &Program,
) -> Result<(), NoMemory>
    requires { (u : Code) × (functions.items ≡ u.functions.items) × IsAssemblable u program.now }
    ensures adds { OnOk result (Grows linker.old linker.new
        (AddsNamedFunctions functions.items program.now (length functions.items))) }
    ensures labels { OnOk result (entry_label (length functions.items) < 2 ^ 32) }
{
    let mut first_block = label_behind(FIRST_FREE, functions.len())?;
    let count = first_block - FIRST_FREE;
    let mut number = 0;
    for function in functions {
        let next = label_behind(first_block, function.blocks.len())?;
        let names = Names {
            statics: program.statics,
            functions: count,
            function: &function,
            layout: &program.layouts[number as usize],
            first_block,
        };
        let name = program.names[number as usize].as_str();
        push_function(alloc, linker, &names, number, name)?;
        first_block = next;
        number += 1;
    }
    Ok(())
}
