ghost use Rattle.std.specs.Prelude.{◌≡◌, ◌<◌, ◌+◌, ℕ, IfOk, length, sum};
ghost use Rattle.std.specs.Bool.{OnTrue, OnFalse};
ghost use Rattle.im_block.specs.Wellformed.{ExitThere};
ghost use Rattle.im_alloc_relation.specs.Live.{lives};
ghost use Rattle.im_block_live.specs.Words.{has, starts_have, Joins, AreStarts, AreRead, AreClosed};
ghost use Rattle.im_block_live.specs.Words.{AreWords, AreLinked};

use crate::registers::{before, before_exit};
use im_block::Block;
use im_num::NoMemory;
use std::alloc::Global;

/// The registers that live before a block's lines, by those at the starts of blocks.
fn before_block(base: u64, starts: &[u32], block: &Block) -> u32
    requires { ExitThere (length starts.now) block.now.exit }
    ensures { (j : ℕ) → j < 32 → has result j
        ≡ lives (starts_have starts.now j) block.now.lines.items block.now.exit (base + j) }
{
    let mut word = before_exit(base, starts, block.exit);
    let mut left = block.lines.len();
    while left > 0 {
        left -= 1;
        word = before(base, block.lines[left], word);
    }
    word
}

/// What lives before a block joins its word. Says whether any word has had news so far.
fn join_block(base: u64, starts: &mut [u32], number: usize, block: &Block, was_news: bool) -> bool
    requires number { number < length starts.old }
    requires there { ExitThere (length starts.old) block.now.exit }
    ensures { Joins base block.now number starts.old starts.new was_news result }
{
    let word = before_block(base, starts, block);
    let old = starts[number];
    starts[number] = old | word;
    was_news || old | word != old
}

/// One sweep over the blocks, and whether it found a register more. Edges lead to lower numbers
/// but on loops, so that from block 0 up most is found at once.
fn sweep(base: u64, starts: &mut [u32], blocks: &[Block]) -> bool
    requires count { length starts.old ≡ length blocks.now }
    requires linked { AreLinked blocks.now }
    ensures count { length starts.new ≡ length blocks.now }
    ensures read { AreRead base blocks.now starts.old → AreRead base blocks.now starts.new }
    ensures small { AreWords starts.old → AreWords starts.new }
    ensures news { OnTrue result (sum starts.old < sum starts.new) }
    ensures idle { OnFalse result (AreClosed base blocks.now starts.new) }
{
    let mut is_news = false;
    for (number, block) in blocks.iter().enumerate() {
        is_news = join_block(base, starts, number, block, is_news);
    }
    is_news
}

/// Of 32 registers those that live at the start of each block.
pub(crate) fn starts(alloc: Global, base: u64, blocks: &[Block]) -> Result<Vec<u32>, NoMemory>
    requires { AreLinked blocks.now }
    ensures { IfOk result (λ words. AreStarts base blocks.now words.items) }
{
    let mut words: Vec<u32> = vec![in alloc; 0; blocks.len()]?;
    'settle: while sweep(base, &mut words, blocks) {}
    Ok(words)
}
