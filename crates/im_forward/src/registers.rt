ghost use Rattle.std.specs.Prelude.{IfOk};
ghost use Rattle.im_block.specs.Wellformed.{IsWellFormed};
ghost use Rattle.im_alloc_placed.specs.Placeable.{IsPlaceable};
ghost use Rattle.im_forward.specs.Registers.{InRegisters};

use crate::forward;
use im_block::Unit;
use im_num::NoMemory;
use im_promote::{formed_law, placeable_law, promote};
use std::alloc::Global;

/// The unit with scalar locals as registers, whose copies are forwarded to those that use them.
pub fn in_registers(alloc: Global, unit: Unit) -> Result<Unit, NoMemory>
    requires well_formed { IsWellFormed unit }
    requires placeable { IsPlaceable unit }
    ensures { IfOk result (λ forwarded. InRegisters unit forwarded) }
{
    formed_law();
    placeable_law();
    let promoted = promote(alloc, unit)?;
    let forwarded = forward(alloc, promoted)?;
    Ok(forwarded)
}
