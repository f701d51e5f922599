ghost use Rattle.std.specs.Prelude.{IfOk, map};
ghost use Rattle.im_store.specs.Objects.{shape_of};
ghost use Rattle.im_block.specs.Meaning.{static_of};
ghost use Rattle.im_eval_machine.specs.Settings.{ArePlans, IsPlanOf, static_shapes};
ghost use Rattle.im_block_run.specs.Laid.{AreLaidOut, AreLayouts, object_shapes};

use crate::code::Layouts;
use im_block::{Function, Object, Static, Unit};
use im_eval_store::Plan;
use im_num::NoMemory;
use std::alloc::Global;

/// The plan of an object.
fn plan_of(alloc: Global, object: &Object) -> Result<Plan, NoMemory>
    ensures { IfOk result (IsPlanOf (shape_of object.now.size object.now.cells.items)) }
{
    Plan::new(alloc, object.size, &object.cells)
}

/// The plans of objects, in their order.
fn plans_of(alloc: Global, objects: &[Object]) -> Result<Vec<Plan>, NoMemory>
    ensures { IfOk result (λ plans. ArePlans (object_shapes objects.now) plans.items) }
{
    let mut plans = Vec::new(alloc);
    for object in objects {
        plans.push(plan_of(alloc, object)?)?;
    }
    Ok(plans)
}

/// The plans of statics, in their order.
fn static_plans(alloc: Global, statics: &[Static]) -> Result<Vec<Plan>, NoMemory>
    ensures { IfOk result (λ plans. ArePlans (static_shapes (map static_of statics.now))
        plans.items) }
{
    let mut plans = Vec::new(alloc);
    for one in statics {
        plans.push(plan_of(alloc, &one.object)?)?;
    }
    Ok(plans)
}

/// The plans of the objects of functions.
fn function_plans(alloc: Global, functions: &[Function]) -> Result<Vec<Vec<Plan>>, NoMemory>
    ensures { IfOk result (λ all. AreLayouts functions.now all.items) }
{
    let mut all = Vec::new(alloc);
    for function in functions {
        let plans = plans_of(alloc, &function.objects)?;
        all.push(plans)?;
    }
    Ok(all)
}

/// Works out how all objects of a unit lie in memory.
pub(crate) fn layouts_of(alloc: Global, unit: &Unit) -> Result<Layouts, NoMemory>
    ensures { IfOk result (AreLaidOut unit.now) }
{
    let statics = static_plans(alloc, &unit.statics)?;
    let functions = function_plans(alloc, &unit.functions)?;
    Ok(Layouts { statics, functions })
}
