ghost use Rattle.std.specs.Prelude.{IfOk, length};
ghost use Rattle.im_block.specs.Wellformed.{ExitThere};
ghost use Rattle.im_block_live.specs.Reads.{IsLive};
ghost use Rattle.im_block_live.specs.Words.{groups_have, AreWithin, ArePoints, HaveWords};

use crate::groups::Live;
use crate::registers::{before, before_exit};
use crate::sweeps::starts;
use im_block::{Block, Function};
use im_num::NoMemory;
use std::alloc::Global;

/// The virtual registers that live at the starts of a function's blocks: some path from there reads
/// them before it sets them.
pub fn live(alloc: Global, function: &Function) -> Result<Live, NoMemory>
    requires { AreWithin function.now }
    ensures live { IfOk result (λ live. IsLive function.now.blocks.items (groups_have live.groups.items)) }
    ensures words { IfOk result (λ live.
        HaveWords function.now.register_count (length function.now.blocks.items) live.groups.items) }
{
    let mut groups = Vec::new(alloc);
    for i in 0..function.register_count.div_ceil(32) {
        groups.push(starts(alloc, 32 * u64::from(i), &function.blocks)?)?;
    }
    Ok(Live { groups })
}

/// Of the 32 registers from `base` on those that live at the points of a block: before each line,
/// and before the exit. `starts` has those that live at the starts of blocks.
pub fn points(alloc: Global, base: u64, starts: &[u32], block: &Block) -> Result<Vec<u32>, NoMemory>
    requires { ExitThere (length starts.now) block.now.exit }
    ensures { IfOk result (λ words.
        ArePoints base starts.now block.now.lines.items block.now.exit words.items) }
{
    let count = block.lines.len();
    let mut words: Vec<u32> = vec![in alloc; 0; count + 1]?;
    words[count] = before_exit(base, starts, block.exit);
    let mut left = count;
    while left > 0 {
        let behind = words[left];
        left -= 1;
        words[left] = before(base, block.lines[left], behind);
    }
    Ok(words)
}
