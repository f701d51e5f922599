ghost use Rattle.std.specs.Prelude.{◌≡◌, ◌+◌, IfOk, OnOk, vec_len};
ghost use Rattle.im_alias.specs.Sets.{HasShape, HaveNothing, IsEmptyTable};

use crate::set::ObjectSet;
use crate::table::{RegisterSets, Table};
use im_block::Unit;
use im_num::NoMemory;
use std::alloc::Global;

/// A unit's table, with nothing in its sets.
pub fn make_table(alloc: Global, unit: &Unit) -> Result<Table, NoMemory>
    ensures shape { IfOk result (λ table. HasShape unit.now table) }
    ensures empty { IfOk result (λ table. IsEmptyTable table) }
{
    let mut objects = Vec::new(alloc);
    let mut returned = Vec::new(alloc);
    let mut registers = Vec::new(alloc);
    push_empty(alloc, &mut objects, unit.statics.len())?;
    push_empty(alloc, &mut returned, unit.functions.len())?;
    for function in &unit.functions {
        push_empty(alloc, &mut objects, function.objects.len())?;
        let mut sets = Vec::new(alloc);
        push_empty(alloc, &mut sets, function.register_count as usize)?;
        registers.push(RegisterSets { sets })?;
    }
    Ok(Table {
        objects,
        returned,
        registers,
    })
}

fn push_empty(alloc: Global, sets: &mut Vec<ObjectSet>, count: usize) -> Result<(), NoMemory>
    ensures count { OnOk result (vec_len sets.new ≡ vec_len sets.old + count) }
    ensures nothing { OnOk result (HaveNothing sets.old.items → HaveNothing sets.new.items) }
{
    for _number in 0..count {
        sets.push(ObjectSet::new(alloc))?;
    }
    Ok(())
}
