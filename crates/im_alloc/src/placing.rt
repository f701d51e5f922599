ghost use Rattle.std.specs.Prelude.{◌≡◌, ◌≤◌, All, IfOk};
ghost use Rattle.im_block.specs.Wellformed.{IsWellFormed};
ghost use Rattle.im_alloc_placed.specs.Placeable.{IsPlaceable};
ghost use Rattle.im_alloc_laws.specs.Numbered.{IsWellPlaced};
ghost use Rattle.im_alloc_intervals.specs.Homes.{home_at, IsAble};
ghost use Rattle.im_alloc.specs.Leaves.{LeavesLeaves};
ghost use Rattle.im_alloc.specs.Parts.{Fits};
ghost use Rattle.im_alloc.specs.Places.{FitsBlock, PlacesBlock, PlacesBlocks, PlacesFunction};

use crate::exits::{exit_on, push_exit};
use crate::lines::push_lines;
use crate::numbers::{behind, past_all};
use im_alloc_intervals::{Home, homes};
use im_block::{Block, Function, Registers, Unit};
use im_num::NoMemory;
use std::alloc::Global;

/// The unit over the machine's registers: each virtual register has a register of the machine or a
/// slot as its home, for its whole function.
pub fn place(alloc: Global, mut unit: Unit) -> Result<Unit, NoMemory>
    requires well_formed { IsWellFormed unit }
    requires placeable { IsPlaceable unit }
    ensures placed { IfOk result (λ placed. IsWellPlaced unit placed) }
    ensures leaf { IfOk result (λ placed. LeavesLeaves unit placed) }
{
    let mut number = past_all(&unit.functions)?;
    for function in unit.functions.iter_mut() {
        number = place_function(alloc, number, function)?;
    }
    Ok(unit)
}

/// A function with numbers from one on, and the number behind all of its own.
fn place_function(alloc: Global, number: u64, function: &mut Function) -> Result<u64, NoMemory>
    requires { IsAble function.old }
    ensures { IfOk result (λ next. PlacesFunction number next function.old function.new) }
{
    let homes = homes(alloc, function)?;
    let next = place_blocks(alloc, &homes.of, number, &mut function.blocks)?;
    function.slots = homes.slots;
    function.registers = Registers::Machine;
    function.register_count = 32;
    function.first_parameter = 10;
    Ok(next)
}

/// Blocks with numbers from one on, and the number behind all of theirs.
fn place_blocks(
    alloc: Global,
    homes: &[Home],
    number: u64,
    blocks: &mut [Block],
) -> Result<u64, NoMemory>
    requires { All FitsBlock blocks.old }
    ensures { IfOk result (λ next.
        PlacesBlocks (home_at homes.now) number next blocks.old blocks.new) }
{
    let mut next = number;
    for block in blocks.iter_mut() {
        next = place_block(alloc, homes, next, block)?;
    }
    Ok(next)
}

fn place_block(
    alloc: Global,
    homes: &[Home],
    number: u64,
    block: &mut Block,
) -> Result<u64, NoMemory>
    requires { FitsBlock block.old }
    ensures { IfOk result (λ next.
        PlacesBlock (home_at homes.now) number next block.old block.new) }
{
    let mut lines = Vec::new(alloc);
    let end = push_lines(&mut lines, homes, number, &block.lines, block.exit)?;
    push_exit(&mut lines, homes, end, block.exit)?;
    let next = behind(end)?;
    block.exit = exit_on(homes, block.exit);
    block.lines = lines;
    Ok(next)
}
