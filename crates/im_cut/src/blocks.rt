ghost use Rattle.std.specs.Prelude.{◌≡◌, ◌<◌, IfOk, OnOk, length};
ghost use Rattle.im_block.specs.Shape.{IsOrdered};
ghost use Rattle.im_cut.specs.Greedy.{CutsTo};
ghost use Rattle.im_cut.specs.Blocks.{AreCutAtTurns, SweepsBlock};

use crate::joins::hand_on;
use crate::lines::sweep_lines;
use crate::marks::{Marks, nothing};
use crate::starts::start_table;
use im_block::{Block, Dep, Function, Tags};
use im_dep::covers_law;
use im_num::NoMemory;
use std::alloc::Global;
use std::mem;

/// The function with a cut directly before each write that may meet a read which is exposed on a
/// path to it, and the dependences for which they stand, in the order in which they were found.
pub fn cut(
    alloc: Global,
    mut function: Function,
    tags: &Tags,
) -> Result<(Function, Vec<Dep>), NoMemory>
    requires ordered { IsOrdered function.blocks.items }
    requires turns { AreCutAtTurns function.blocks.items }
    ensures { IfOk result (λ r. CutsTo tags.now function r.0 r.1.items) }
{
    let deps = cut_in(alloc, &mut function, tags)?;
    Ok((function, deps))
}

/// The same in place.
pub fn cut_in(alloc: Global, function: &mut Function, tags: &Tags) -> Result<Vec<Dep>, NoMemory>
    requires ordered { IsOrdered function.old.blocks.items }
    requires turns { AreCutAtTurns function.old.blocks.items }
    ensures { IfOk result (λ deps. CutsTo tags.now function.old function.new deps.items) }
{
    covers_law();
    let mut deps = Vec::new(alloc);
    let mut table = start_table(alloc, function)?;
    for number in (0..function.blocks.len()).rev() {
        sweep_block(
            alloc,
            &mut function.blocks[number],
            number,
            &mut table,
            tags,
            &mut deps,
        )?;
    }
    Ok(deps)
}

/// Sweeps one block, whose number is given; the later ones are done.
fn sweep_block(
    alloc: Global,
    block: &mut Block,
    number: usize,
    table: &mut Vec<Marks>,
    tags: &Tags,
    deps: &mut Vec<Dep>,
) -> Result<(), NoMemory>
    requires { number < length table.old.items }
    ensures sweeps { OnOk result (SweepsBlock tags.now number block.old block.new table.old.items
        table.new.items deps.old.items deps.new.items) }
    ensures len { OnOk result (length table.new.items ≡ length table.old.items) }
{
    let mut marks = mem::replace(&mut table[number], nothing(alloc));
    let lines = sweep_lines(alloc, &block.lines, &mut marks, tags, deps)?;
    block.lines = lines;
    hand_on(alloc, table, block.exit, &marks, tags)?;
    Ok(())
}
