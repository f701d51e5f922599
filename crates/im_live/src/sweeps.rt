ghost use Rattle.std.specs.Prelude.{◌≡◌, ◌≤◌, ◌<◌, ℕ, length, sum};
ghost use Rattle.std.specs.Bool.{OnTrue, OnFalse};
ghost use Rattle.im_live.specs.Reads.{lives_before};
ghost use Rattle.im_live.specs.Words.{has, starts_have, Joins, IsMachineBlock, AreMachine, AreRead};
ghost use Rattle.im_live.specs.Words.{AreClosed, AreWords};

use crate::registers::{before, before_exit};
use im_block::Block;

/// The registers that live before a block's lines, by those at the starts of blocks.
fn before_block(starts: &[u32], block: &Block) -> u32
    requires { IsMachineBlock (length starts.now) block.now }
    ensures { (r : ℕ) → r < 32 → has result r
        ≡ lives_before (starts_have starts.now) block.now.lines.items block.now.exit r }
{
    let mut word = before_exit(starts, block.exit);
    let mut left = block.lines.len();
    while left > 0 {
        left -= 1;
        word = before(block.lines[left], word);
    }
    word
}

/// What lives before a block joins its word. Says whether any word has had news so far.
fn join_block(starts: &mut [u32], number: usize, block: &Block, was_news: bool) -> bool
    requires number { number < length starts.old }
    requires machine { IsMachineBlock (length starts.old) block.now }
    ensures { Joins block.now number starts.old starts.new was_news result }
{
    let word = before_block(starts, block);
    let old = starts[number];
    starts[number] = old | word;
    was_news || old | word != old
}

/// One sweep over the blocks, and whether it found a register more. Edges lead to lower numbers
/// but on loops, so that from block 0 up most is found at once.
pub(crate) fn sweep(starts: &mut [u32], blocks: &[Block]) -> bool
    requires count { length starts.old ≡ length blocks.now }
    requires machine { AreMachine blocks.now }
    ensures count { length starts.new ≡ length blocks.now }
    ensures read { AreRead blocks.now starts.old → AreRead blocks.now starts.new }
    ensures small { AreWords starts.old → AreWords starts.new }
    ensures news { OnTrue result (sum starts.old < sum starts.new) }
    ensures idle { OnFalse result (AreClosed blocks.now starts.new) }
{
    let mut is_news = false;
    for (number, block) in blocks.iter().enumerate() {
        is_news = join_block(starts, number, block, is_news);
    }
    is_news
}
