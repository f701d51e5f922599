ghost use Rattle.std.specs.Prelude.{◌≡◌, ℕ, length, map, slice_get, IfOk, Vec};
ghost use Rattle.std.specs.List.{All};
ghost use Rattle.std.specs.declared.alloc.Global.{Global};
ghost use Rattle.im_ctype.specs.Layout.{layout_at, layouts};
ghost use Rattle.im_ctype.specs.Table.{IsIn, layout_of, structs_of};
ghost use Rattle.im_ctype.specs.declared.cell.Cell.{Cell};
ghost use Rattle.im_store.specs.Objects.{shape_of};
ghost use Rattle.im_typed.specs.ProgramOf.{func_of, object_of, static_of};
ghost use Rattle.im_typed.specs.declared.program.Func as rust_func;
ghost use Rattle.im_typed.specs.declared.program.Static as rust_static;
ghost use Rattle.im_eval_machine.specs.Settings.{AreLayouts, AreLayoutsOf, ArePlans, HasKnownTypes};
ghost use Rattle.im_eval_machine.specs.Settings.{HasTypes, IsPlanOf, cells_at, local_shapes};
ghost use Rattle.im_eval_machine.specs.Settings.{static_shapes};

use crate::code::{Layout, Layouts};
use im_ctype::{Cell, TypeTable, cells, cells_of_struct, size_of};
use im_eval_store::Plan;
use im_num::{NoMemory, beyond_memory};
use im_typed::{Func, Object, Prog, Static};
use std::alloc::Global;

/// The plan of an object.
fn plan_of(alloc: Global, types: &TypeTable, object: &Object) -> Result<Plan, NoMemory>
    requires { IsIn types.now object.now.ty }
    ensures { IfOk result (λ plan. IsPlanOf
        (shape_of object.now.size (layout_of types.now object.now.ty).cells) plan) }
{
    let _bytes = size_of(object.ty, types);
    let cells = cells(alloc, object.ty, types)?;
    Plan::new(alloc, object.size, &cells)
}

/// The plans of objects, in their order.
fn plans_of(alloc: Global, types: &TypeTable, objects: &[Object]) -> Result<Vec<Plan>, NoMemory>
    requires { HasTypes types.now objects.now }
    ensures { IfOk result (λ plans. ArePlans
        (local_shapes (map (object_of types.now) objects.now)) plans.items) }
{
    let mut plans = Vec::new(alloc);
    for object in objects {
        plans.push(plan_of(alloc, types, object)?)?;
    }
    Ok(plans)
}

/// The plans of statics, in their order.
fn static_plans(alloc: Global, types: &TypeTable, statics: &[Static]) -> Result<Vec<Plan>, NoMemory>
    requires { All (λ (s : rust_static.Static). IsIn types.now s.object.ty) statics.now }
    ensures { IfOk result (λ plans. ArePlans
        (static_shapes (map (static_of types.now) statics.now)) plans.items) }
{
    let mut plans = Vec::new(alloc);
    for variable in statics {
        plans.push(plan_of(alloc, types, &variable.object)?)?;
    }
    Ok(plans)
}

/// The layouts of functions; the first object of the first one has that number.
fn function_layouts(
    alloc: Global,
    types: &TypeTable,
    first: u64,
    funcs: &[Func],
) -> Result<Vec<Layout>, NoMemory>
    requires { All (λ (f : rust_func.Func). HasTypes types.now f.objects.items) funcs.now }
    ensures { IfOk result (λ layouts. AreLayouts first (map (func_of types.now) funcs.now)
        layouts.items) }
{
    let mut layouts = Vec::new(alloc);
    let mut next = first;
    for func in funcs {
        let first = next;
        let Some(past) = first.checked_add(func.objects.len() as u64) else {
            return Err(beyond_memory());
        };
        next = past;
        let plans = plans_of(alloc, types, &func.objects)?;
        layouts.push(Layout { first, plans })?;
    }
    Ok(layouts)
}

/// The cells of each struct of the table.
fn all_struct_cells(alloc: Global, types: &TypeTable) -> Result<Vec<Vec<Cell>>, NoMemory>
    ensures { IfOk result (λ found. (n : ℕ) → cells_at (slice_get
        (map {A = Vec Cell Global} (λ v. v.items) found.items) n)
        ≡ (layout_at (layouts (structs_of types.now)) n).cells) }
{
    let mut structs = Vec::new(alloc);
    for number in 0..types.struct_count() {
        let Ok(name) = u32::try_from(number) else {
            return Err(beyond_memory());
        };
        structs.push(cells_of_struct(alloc, name, types)?)?;
    }
    Ok(structs)
}

/// Works out how all objects of a program lie in memory.
pub fn layouts_of(alloc: Global, prog: &Prog) -> Result<Layouts, NoMemory>
    requires { HasKnownTypes prog.now }
    ensures { IfOk result (AreLayoutsOf prog.now) }
{
    let types = &prog.types;
    let statics = static_plans(alloc, types, &prog.statics)?;
    let functions = function_layouts(alloc, types, prog.statics.len() as u64, &prog.funcs)?;
    let structs = all_struct_cells(alloc, types)?;
    Ok(Layouts {
        statics,
        functions,
        structs,
    })
}
