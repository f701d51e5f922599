ghost use Rattle.std.specs.Prelude.{◌≡◌, ◌<◌, IfOk, OnOk, length, take, vec_len};
ghost use Rattle.im_alias.specs.Scan.{IsScattered, Settled, numbers};
ghost use Rattle.im_alias.specs.Sets.{IsCode, IsPart, points};
ghost use Rattle.im_alias.specs.Least.{AreLeastTags, IsLeastAt};
ghost use Rattle.im_alloc_placed.specs.Placeable.{IsPlaceable};
ghost use Rattle.im_block.specs.Tagged.{IsSound};
ghost use Rattle.im_block.specs.Wellformed.{AreApart, IsWellFormed};

use crate::flow::sweep;
use crate::found::{Found, Tagged};
use crate::made::make_table;
use crate::table::Table;
use im_block::{Tags, Unit};
use im_num::NoMemory;
use std::alloc::Global;

/// The tags of a unit's accesses: the least that are sound by points-to sets.
pub fn alias(alloc: Global, unit: &Unit) -> Result<Tags, NoMemory>
    requires well_formed { IsWellFormed unit.now }
    requires placeable { IsPlaceable unit.now }
    ensures sound { IfOk result (λ tags. IsSound unit.now tags) }
    ensures least { IfOk result (λ tags. AreLeastTags unit.now tags) }
{
    let mut table = make_table(alloc, unit)?;
    let found = settle(alloc, unit, &mut table)?;
    let of = scatter(alloc, &found.accesses)?;
    let tags = found.into_tags();
    Ok(Tags { of, tags })
}

/// Sweeps until one changes nothing, and the tags of that one.
fn settle(alloc: Global, unit: &Unit, table: &mut Table) -> Result<Found, NoMemory>
    requires code { IsCode unit.now }
    requires part { IsPart unit.now table.old }
    requires least { IsLeastAt (points table.old) unit.now }
    ensures { IfOk result (λ found. Settled unit.now table.new found) }
{
    loop {
        let mut found = Found::new(alloc)?;
        let changed = sweep(alloc, unit, table, &mut found)?;
        if !changed {
            return Ok(found);
        }
    }
}

/// For each access, by its number, where its tag stands.
fn scatter(alloc: Global, accesses: &[Tagged]) -> Result<Vec<u32>, NoMemory>
    requires { AreApart (numbers accesses.now) }
    ensures { IfOk result (λ of. IsScattered (length accesses.now) accesses.now of.items) }
{
    let mut of = Vec::new(alloc);
    for each in accesses {
        reach(&mut of, each.access as usize)?;
        of[each.access as usize] = each.tag;
    }
    Ok(of)
}

/// Makes the list long enough to have such an index.
fn reach(of: &mut Vec<u32>, index: usize) -> Result<(), NoMemory>
    ensures long { OnOk result (index < vec_len of.new) }
    ensures front { OnOk result (take (vec_len of.old) of.new.items ≡ of.old.items) }
{
    while of.len() <= index {
        of.push(0)?;
    }
    Ok(())
}
