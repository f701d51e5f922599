ghost use Rattle.std.specs.Prelude.{◌≡◌, IfOk, OnOk};
ghost use Rattle.im_alias.specs.Scan.{Alike, CanPass, Passes, given_of, target_of};
ghost use Rattle.im_alias.specs.Sets.{points, row_sets};

use crate::place::{address_set, loaded_set};
use crate::set::ObjectSet;
use crate::table::{RegisterSets, Table};
use im_block::Line;
use im_num::NoMemory;
use std::alloc::Global;

/// The sets of the registers behind a line, from those before it.
pub fn pass(
    alloc: Global,
    table: &Table,
    spot: &mut RegisterSets,
    line: Line,
) -> Result<(), NoMemory>
    requires { CanPass table.now spot.old line }
    ensures { OnOk result (Passes (points table.now) line spot.old spot.new) }
{
    if let Some(to) = target(line) {
        let set = given(alloc, table, spot, line)?;
        spot.sets[to as usize] = set;
    }
    Ok(())
}

/// The register that a line sets.
fn target(line: Line) -> Option<u32>
    ensures { result ≡ target_of line }
{
    match line {
        Line::Put { to, .. }
        | Line::PutNull { to }
        | Line::Copy { to, .. }
        | Line::Convert { to, .. }
        | Line::Unary { to, .. }
        | Line::Not { to, .. }
        | Line::Compute { to, .. }
        | Line::Compare { to, .. }
        | Line::Move { to, .. }
        | Line::Distance { to, .. }
        | Line::Address { to, .. }
        | Line::Read { to, .. }
        | Line::Call { to, .. }
        | Line::Serve { to, .. } => Some(to),
        Line::Write { .. } | Line::Reload { .. } | Line::Spill { .. } | Line::Cut(_) => None,
    }
}

/// The set of the register that a line sets.
fn given(
    alloc: Global,
    table: &Table,
    spot: &RegisterSets,
    line: Line,
) -> Result<ObjectSet, NoMemory>
    requires { CanPass table.now spot.now line }
    ensures { IfOk result (λ set. Alike set.members.items (given_of (points table.now) (row_sets spot.now) line)) }
{
    match line {
        Line::Copy { from, .. } => spot.sets[from as usize].copy(alloc),
        Line::Move { pointer, .. } => spot.sets[pointer as usize].copy(alloc),
        Line::Address { place, .. } => address_set(alloc, spot, place),
        Line::Read { place, .. } => loaded_set(alloc, table, spot, place),
        Line::Call { function, .. } => table.returned[function as usize].copy(alloc),
        _ => Ok(ObjectSet::new(alloc)),
    }
}
