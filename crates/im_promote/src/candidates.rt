ghost use Rattle.std.specs.Prelude.{◌≡◌, ◌<◌, ◌+◌, ℕ, All, IfOk, false, true, length};
ghost use Rattle.im_block.specs.Wellformed.{ExitThere};
ghost use Rattle.im_promote.specs.Words.{has, breaks, AreLinked};
ghost use Rattle.im_promote.specs.Homes.{AreCandidates, IsReady, MayBeRegister};

use crate::objects::{before, before_exit, neither, spoiled};
use crate::sweeps::live_starts;
use im_block::{Block, Function};
use im_num::NoMemory;
use std::alloc::Global;

/// The objects that a block's lines keep from being registers.
fn spoiled_by_block(base: u64, starts: &[u32], block: &Block) -> u32
    requires { ExitThere (length starts.now) block.now.exit }
    ensures { (j : ℕ) → j < 32 → has result j ≡ false
        → All (λ line. breaks line (base + j) ≡ false) block.now.lines.items }
{
    let mut all = 0;
    let mut live = before_exit(starts, block.exit);
    let mut left = block.lines.len();
    while left > 0 {
        left -= 1;
        let line = block.lines[left];
        all |= spoiled(base, line, live);
        live = before(base, line, live);
    }
    all
}

/// The objects that a function's lines keep from being registers.
fn spoiled_by_blocks(base: u64, starts: &[u32], blocks: &[Block]) -> u32
    requires count { length starts.now ≡ length blocks.now }
    requires linked { AreLinked blocks.now }
    ensures { (j : ℕ) → j < 32 → has result j ≡ false
        → All (λ block. All (λ line. breaks line (base + j) ≡ false) block.lines.items) blocks.now }
{
    let mut all = 0;
    for block in blocks {
        all |= spoiled_by_block(base, starts, block);
    }
    all
}

/// Of 32 objects those that may be registers.
fn candidates(alloc: Global, base: u64, function: &Function) -> Result<u32, NoMemory>
    requires { IsReady function.now }
    ensures { IfOk result (λ word.
        (j : ℕ) → j < 32 → has word j ≡ true → MayBeRegister function.now (base + j)) }
{
    let starts = live_starts(alloc, base, &function.blocks)?;
    let unfit = spoiled_by_blocks(base, &starts, &function.blocks);
    Ok(neither(unfit, starts[function.entry as usize]))
}

/// The objects of a function that may be registers, 32 a word.
pub(crate) fn all_candidates(alloc: Global, function: &Function) -> Result<Vec<u32>, NoMemory>
    requires { IsReady function.now }
    ensures { IfOk result (λ words. AreCandidates function.now words.items) }
{
    let mut words = Vec::new(alloc);
    for i in 0..function.objects.len().div_ceil(32) {
        let base = u64::from(function.first_object) + 32 * i as u64;
        words.push(candidates(alloc, base, function)?)?;
    }
    Ok(words)
}
