ghost use Rattle.std.specs.Prelude.{IfOk, OnOk};
ghost use Rattle.im_block.specs.Wellformed.{IsWellFormed};
ghost use Rattle.im_alloc_placed.specs.Placeable.{IsPlaceable};
ghost use Rattle.im_forward.specs.Forward.{ForwardsFunction, Forwards};
ghost use Rattle.im_forward.specs.Known.{IsReady};

use crate::dead::all_leave_out;
use crate::sources::all_use_sources;
use crate::straight::straighten;
use im_block::{Function, Unit};
use im_block_live::live;
use im_num::NoMemory;
use std::alloc::Global;

/// The unit with copies forwarded: what used a copy uses what was copied, and a copy that nothing
/// uses any more is left out. What a line computes goes straight to where it is kept.
pub fn forward(alloc: Global, mut unit: Unit) -> Result<Unit, NoMemory>
    requires well_formed { IsWellFormed unit }
    requires placeable { IsPlaceable unit }
    ensures { IfOk result (λ forwarded. Forwards unit forwarded) }
{
    for function in unit.functions.iter_mut() {
        forward_function(alloc, function)?;
    }
    Ok(unit)
}

fn forward_function(alloc: Global, function: &mut Function) -> Result<(), NoMemory>
    requires { IsReady function.old }
    ensures { OnOk result (ForwardsFunction function.old function.new) }
{
    straighten_twice(alloc, function)?;
    all_use_sources(alloc, function)?;
    let living = live(alloc, function)?;
    all_leave_out(alloc, function.register_count, &living.groups, function)?;
    Ok(())
}

/// What lines set goes straight to where it is kept, also where two lines pass it on.
fn straighten_twice(alloc: Global, function: &mut Function) -> Result<(), NoMemory>
    requires { IsReady function.old }
    ensures ready { OnOk result (IsReady function.new) }
    ensures forwards { OnOk result (ForwardsFunction function.old function.new) }
{
    let living = live(alloc, function)?;
    straighten(alloc, function.register_count, &living.groups, function)?;
    straighten(alloc, function.register_count, &living.groups, function)?;
    Ok(())
}
