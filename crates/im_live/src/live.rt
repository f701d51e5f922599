ghost use Rattle.std.specs.Prelude.{◌≡◌, length, IfOk};
ghost use Rattle.im_live.specs.Reads.{IsLive};
ghost use Rattle.im_live.specs.Words.{starts_have, ArePoints, ArePointsOf, IsMachineBlock};
ghost use Rattle.im_live.specs.Words.{AreMachine};

use crate::registers::{before, before_exit};
use crate::sweeps::sweep;
use im_block::{Block, Function};
use im_num::NoMemory;
use std::alloc::Global;

/// The registers that live at the start of each block of placed code, as a word whose bit i is xi:
/// some path from there reads xi before it writes it.
pub fn starts(alloc: Global, function: &Function) -> Result<Vec<u32>, NoMemory>
    requires { AreMachine function.now.blocks.items }
    ensures count { IfOk result (λ words. length words.items ≡ length function.now.blocks.items) }
    ensures exact { IfOk result (λ words.
        IsLive function.now.blocks.items (starts_have words.items)) }
{
    let mut words: Vec<u32> = vec![in alloc; 0; function.blocks.len()]?;
    'settle: while sweep(&mut words, &function.blocks) {}
    Ok(words)
}

/// The registers that live at the points of a block: before each of its lines, and before its exit.
pub fn points(alloc: Global, starts: &[u32], block: &Block) -> Result<Vec<u32>, NoMemory>
    requires { IsMachineBlock (length starts.now) block.now }
    ensures { IfOk result (λ words.
        ArePoints (starts_have starts.now) block.now.lines.items block.now.exit words.items) }
{
    let count = block.lines.len();
    let mut words: Vec<u32> = vec![in alloc; 0; count + 1]?;
    words[count] = before_exit(starts, block.exit);
    let mut left = count;
    while left > 0 {
        let behind = words[left];
        left -= 1;
        words[left] = before(block.lines[left], behind);
    }
    Ok(words)
}

/// The registers that live at the points of placed code, in order of blocks: before each line, and
/// before the block's exit. Bit i is xi.
pub fn placed_live(alloc: Global, function: &Function) -> Result<Vec<u32>, NoMemory>
    requires { AreMachine function.now.blocks.items }
    ensures { IfOk result (λ words. ArePointsOf function.now.blocks.items words.items) }
{
    let live = starts(alloc, function)?;
    let mut words = Vec::new(alloc);
    for block in &function.blocks {
        let these = points(alloc, &live, block)?;
        words.extend_from_slice(&these)?;
    }
    Ok(words)
}
