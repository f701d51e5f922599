ghost use Rattle.std.specs.Prelude.{◌*◌, ◌<◌, ◌^◌, ℕ, Vec, All, IfSome, OnOk, length};
ghost use Rattle.im_block.specs.Wellformed.{ExitThere};
ghost use Rattle.im_block_live.specs.Words.{groups_have, HaveWords, AreLinked};
ghost use Rattle.im_forward.specs.Straight.{PassesOn, IsStraight, Straightens, AllStraighten};

use crate::dying::dies;
use crate::values::{gives, set_in, target_of};
use im_block::{Block, Function, Line};
use im_num::NoMemory;
use std::alloc::Global;

/// The register into which a line passes on what the line before it set in `register`, as it is.
fn passed_to(set: Line, register: u32, line: Line) -> Option<u32>
    ensures { IfSome result (λ to. PassesOn set register to line) }
{
    match line {
        Line::Copy { to, from } => { if from == register { Some(to) } else { None } }
        Line::Convert { to, kind, from } => {
            if from == register && gives(kind, set) {
                Some(to)
            } else {
                None
            }
        }
        _ => None,
    }
}

/// The line to stand in the place of one of a block and of the next, which passes on what it sets.
fn straight(groups: &[Vec<u32>], block: &Block, i: usize) -> Option<Line>
    requires within { i < length block.now.lines.items }
    requires there { All (λ (words : Vec ℕ Global). ExitThere (length words.items) block.now.exit) groups.now }
    ensures { IfSome result (λ line.
        IsStraight (groups_have groups.now) block.now.exit block.now.lines.items i line) }
{
    if i + 1 == block.lines.len() {
        return None;
    }
    let line = block.lines[i];
    let register = target_of(line)?;
    let to = passed_to(line, register, block.lines[i + 1])?;
    if register == to || dies(groups, block, i + 2, register) {
        Some(set_in(to, line))
    } else {
        None
    }
}

/// What lines of a block set goes straight to where the next ones keep it. `groups` has the
/// registers that live at the starts of blocks, 32 a group.
fn straighten_block(alloc: Global, groups: &[Vec<u32>], block: &mut Block) -> Result<(), NoMemory>
    requires { All (λ (words : Vec ℕ Global). ExitThere (length words.items) block.old.exit) groups.now }
    ensures { OnOk result (Straightens (groups_have groups.now) block.old block.new) }
{
    let mut kept = Vec::new(alloc);
    let mut i = 0;
    while i < block.lines.len() {
        match straight(groups, block, i) {
            Some(line) => {
                kept.push(line)?;
                i += 2;
            }
            None => {
                kept.push(block.lines[i])?;
                i += 1;
            }
        }
    }
    block.lines = kept;
    Ok(())
}

/// What lines set goes straight to where the next ones keep it, in each block.
pub(crate) fn straighten(
    alloc: Global,
    registers: u32,
    groups: &[Vec<u32>],
    function: &mut Function,
) -> Result<(), NoMemory>
    requires words { HaveWords registers (length function.old.blocks.items) groups.now }
    requires linked { AreLinked function.old.blocks.items }
    ensures { OnOk result (AllStraighten (groups_have groups.now) function.old function.new) }
{
    for block in function.blocks.iter_mut() {
        straighten_block(alloc, groups, block)?;
    }
    Ok(())
}
