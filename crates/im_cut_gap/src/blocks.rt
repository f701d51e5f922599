ghost use Rattle.std.specs.Prelude.{◌≡◌, ◌<◌, ◌≤◌, ℕ, OnOk, length, slice_get, Some};
ghost use Rattle.im_block.specs.declared.code.Block.{Block};
ghost use Rattle.im_block.specs.Shape.{IsOrdered};
ghost use Rattle.im_block.specs.Forced.{CutAtTurn};
ghost use Rattle.im_cut_gap.specs.Gaps.{GapCutsTo};
ghost use Rattle.im_cut_gap.specs.Sweep.{SweepsBlock};

use crate::lines::cut_lines;
use crate::starts::{hand_on, start_costs};
use im_block::{Block, Function};
use im_num::NoMemory;
use std::alloc::Global;

/// Adds a cut wherever a path without one would cost more words than `most`, in place.
pub fn cut_gaps(alloc: Global, function: &mut Function, most: u32) -> Result<(), NoMemory>
    requires ordered { IsOrdered function.old.blocks.items }
    requires turns { (b : ℕ) (block : Block) → slice_get function.old.blocks.items b ≡ Some block → CutAtTurn block.exit block.lines.items }
    requires enough { 8 ≤ most }
    ensures { OnOk result (GapCutsTo most function.old function.new) }
{
    let mut costs = start_costs(alloc, function)?;
    for number in (0..function.blocks.len()).rev() {
        cut_block(
            alloc,
            &mut function.blocks[number],
            number,
            &mut costs,
            most,
        )?;
    }
    Ok(())
}

/// Cuts one block, whose number is given; the later ones are done.
fn cut_block(
    alloc: Global,
    block: &mut Block,
    number: usize,
    costs: &mut Vec<Option<u32>>,
    most: u32,
) -> Result<(), NoMemory>
    requires within { number < length costs.old.items }
    requires enough { 8 ≤ most }
    ensures sweeps { OnOk result (SweepsBlock most number block.old block.new costs.old.items costs.new.items) }
    ensures len { OnOk result (length costs.new.items ≡ length costs.old.items) }
{
    let start = costs[number];
    let (lines, end) = cut_lines(alloc, &block.lines, block.exit, start, most)?;
    block.lines = lines;
    hand_on(costs, block.exit, end);
    Ok(())
}
