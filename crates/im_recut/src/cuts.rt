ghost use Rattle.std.specs.Prelude.{◌≡◌, ℕ, IfOk, OnOk, Some, slice_get};
ghost use Rattle.im_block.specs.declared.code.Block.{Block};
ghost use Rattle.im_block.specs.Forced.{AllForced, CutAtTurn};
ghost use Rattle.im_block.specs.Shape.{AllOrdered, IsOrdered};
ghost use Rattle.im_recut.specs.Recut.{GapsTo, IsGapLimit, RecutsFunction, RecutsTo};

use im_block::{Function, Tags, Unit};
use im_cut::cut_in;
use im_cut_gap::{cut_gaps, gap_same_law};
use im_num::NoMemory;
use std::alloc::Global;

/// The instructions of a gap that aren't a function's own: those of recovery, a checkpoint, a
/// routine and what calls need.
const BEYOND: u32 = 110;

/// The unit with a cut wherever a path would else be too long for the longest gap that is asked
/// for, in instructions, and directly before each write, those to slots too, that may meet a read
/// which is exposed on a path to it.
pub fn recut(
    alloc: Global,
    mut unit: Unit,
    tags: &Tags,
    max_gap: Option<u32>,
) -> Result<Unit, NoMemory>
    requires ordered { AllOrdered unit }
    requires forced { AllForced unit }
    requires limit { IsGapLimit max_gap }
    ensures { IfOk result (λ cut. RecutsTo tags.now max_gap unit cut) }
{
    for function in unit.functions.iter_mut() {
        recut_function(alloc, function, tags, max_gap)?;
    }
    Ok(unit)
}

/// One function: gap cuts first, so that the greedy ones find all reads that are exposed with them.
fn recut_function(
    alloc: Global,
    function: &mut Function,
    tags: &Tags,
    max_gap: Option<u32>,
) -> Result<(), NoMemory>
    requires ordered { IsOrdered function.old.blocks.items }
    requires turns { (b : ℕ) (block : Block) → slice_get function.old.blocks.items b ≡ Some block → CutAtTurn block.exit block.lines.items }
    requires limit { IsGapLimit max_gap }
    ensures { OnOk result (RecutsFunction tags.now max_gap function.old function.new) }
{
    gap_same_law();
    bound_gaps(alloc, function, max_gap)?;
    cut_in(alloc, function, tags)?;
    Ok(())
}

/// The gap cuts of one function, if a longest gap is asked for.
fn bound_gaps(alloc: Global, function: &mut Function, max_gap: Option<u32>) -> Result<(), NoMemory>
    requires ordered { IsOrdered function.old.blocks.items }
    requires turns { (b : ℕ) (block : Block) → slice_get function.old.blocks.items b ≡ Some block → CutAtTurn block.exit block.lines.items }
    requires limit { IsGapLimit max_gap }
    ensures { OnOk result (GapsTo max_gap function.old function.new) }
{
    match max_gap {
        None => Ok(()),
        Some(gap) => cut_gaps(alloc, function, gap - BEYOND),
    }
}
