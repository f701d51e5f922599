ghost use Rattle.std.specs.Prelude.{IfOk, OnOk};
ghost use Rattle.im_block.specs.Wellformed.{IsWellFormed};
ghost use Rattle.im_alloc_placed.specs.Placeable.{IsPlaceable};
ghost use Rattle.im_promote.specs.Promoted.{IsPromoted};
ghost use Rattle.im_promote.specs.Homes.{IsPromotedFunction, IsReady};

use crate::homes::{choose, has_room};
use crate::rewrite::rewrite;
use im_block::{Function, Unit};
use im_num::NoMemory;
use std::alloc::Global;

/// The unit with scalar locals as registers: those of one cell whose uses are all reads and writes
/// of it by name, that no path reads first, and that live across no call. A function whose frame
/// would have no room for the registers stays as it is.
pub fn promote(alloc: Global, mut unit: Unit) -> Result<Unit, NoMemory>
    requires well_formed { IsWellFormed unit }
    requires placeable { IsPlaceable unit }
    ensures { IfOk result (λ promoted. IsPromoted unit promoted) }
{
    for function in unit.functions.iter_mut() {
        promote_function(alloc, function)?;
    }
    Ok(unit)
}

fn promote_function(alloc: Global, function: &mut Function) -> Result<(), NoMemory>
    requires { IsReady function.old }
    ensures { OnOk result (IsPromotedFunction function.old function.new) }
{
    let homes = choose(alloc, function)?;
    if has_room(function, homes.register_count) {
        rewrite(function, &homes);
    }
    Ok(())
}
