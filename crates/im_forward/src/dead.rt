ghost use Rattle.std.specs.Prelude.{◌≡◌, ◌<◌, ◌+◌, ◌*◌, ◌^◌, ℕ, Vec, All, OnOk, length, false};
ghost use Rattle.std.specs.Bool.{OnFalse, OnTrue};
ghost use Rattle.im_block.specs.Wellformed.{ExitThere};
ghost use Rattle.im_block_live.specs.Words.{has, groups_have, HaveWords, AreLinked};
ghost use Rattle.im_forward.specs.Known.{IsOutside, IsDead, LeavesOut, LeavesOutGroup, AllLeaveOut};

use im_block::{Block, Function, Line};
use im_block_live::points;
use im_num::NoMemory;
use std::alloc::Global;

/// Whether a register is one of the 32 from `base` on, and not in their set.
fn is_without(base: u64, set: u32, register: u32) -> bool
    ensures { OnTrue result (IsOutside base set register) }
{
    let number = u64::from(register);
    if number < base {
        return false;
    }
    let bit = number - base;
    bit < 32 && set >> bit as u32 & 1 == 0
}

/// Whether a line copies into one of the 32 registers from `base` on that doesn't live behind it.
fn is_dead(base: u64, behind: u32, line: Line) -> bool
    ensures { OnTrue result (IsDead base behind line) }
{
    match line {
        Line::Copy { to, .. } => is_without(base, behind, to),
        _ => false,
    }
}

/// Copies into one of the 32 registers from `base` on that doesn't live behind them are left out of
/// a block. `starts` has those that live at the starts of blocks.
fn leave_out(alloc: Global, base: u64, starts: &[u32], block: &mut Block) -> Result<(), NoMemory>
    requires { ExitThere (length starts.now) block.old.exit }
    ensures { OnOk result (LeavesOutGroup base starts.now block.old block.new) }
{
    let words = points(alloc, base, starts, block)?;
    let mut kept = Vec::new(alloc);
    for (i, line) in block.lines.iter().enumerate() {
        if !is_dead(base, words[i + 1], *line) {
            kept.push(*line)?;
        }
    }
    block.lines = kept;
    Ok(())
}

/// Copies into registers that don't live behind them are left out of a block. `groups` has the
/// registers that live at the starts of blocks, 32 a group.
fn leave_out_groups(alloc: Global, groups: &[Vec<u32>], block: &mut Block) -> Result<(), NoMemory>
    requires few { 32 * length groups.now < 2 ^ 33 }
    requires there { All (λ (words : Vec ℕ Global). ExitThere (length words.items) block.old.exit) groups.now }
    ensures { OnOk result (LeavesOut (groups_have groups.now) block.old block.new) }
{
    for (i, starts) in groups.iter().enumerate() {
        leave_out(alloc, 32 * i as u64, starts, block)?;
    }
    Ok(())
}

/// Copies into registers that don't live behind them are left out.
pub(crate) fn all_leave_out(
    alloc: Global,
    registers: u32,
    groups: &[Vec<u32>],
    function: &mut Function,
) -> Result<(), NoMemory>
    requires words { HaveWords registers (length function.old.blocks.items) groups.now }
    requires linked { AreLinked function.old.blocks.items }
    ensures { OnOk result (AllLeaveOut (groups_have groups.now) function.old function.new) }
{
    for block in function.blocks.iter_mut() {
        leave_out_groups(alloc, groups, block)?;
    }
    Ok(())
}
