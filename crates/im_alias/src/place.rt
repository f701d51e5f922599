ghost use Rattle.std.specs.Prelude.{◌≡◌, IfOk, length};
ghost use Rattle.im_alias.specs.Ascending.{IsWithin};
ghost use Rattle.im_alias.specs.Scan.{Alike, IsReached};
ghost use Rattle.im_alias.specs.Sets.{points, row_sets};
ghost use Rattle.im_alias.specs.PointsAt.{addressed, loaded, union};
ghost use Rattle.im_block.specs.Wellformed.{PlaceWithin};

use crate::set::ObjectSet;
use crate::table::{RegisterSets, Table};
use im_block::Place;
use im_num::NoMemory;
use std::alloc::Global;

/// The objects that an address of a place may point to.
pub fn address_set(alloc: Global, spot: &RegisterSets, place: Place) -> Result<ObjectSet, NoMemory>
    requires { PlaceWithin (length spot.now.sets.items) place }
    ensures { IfOk result (λ set. Alike set.members.items (addressed (row_sets spot.now) place)) }
{
    match place {
        Place::Static { object, .. } | Place::Local { object, .. } => ObjectSet::one(alloc, object),
        Place::Through { pointer, .. } => spot.sets[pointer as usize].copy(alloc),
    }
}

/// The objects that a value read at a place may point to.
pub fn loaded_set(
    alloc: Global,
    table: &Table,
    spot: &RegisterSets,
    place: Place,
) -> Result<ObjectSet, NoMemory>
    requires within { PlaceWithin (length spot.now.sets.items) place }
    requires reached { IsReached (length table.now.objects.items) (row_sets spot.now) place }
    ensures { IfOk result (λ set. Alike set.members.items (loaded (points table.now) (row_sets spot.now) place)) }
{
    match place {
        Place::Static { object, .. } | Place::Local { object, .. } => {
            table.objects[object as usize].copy(alloc)
        }
        Place::Through { pointer, .. } => loaded_from(alloc, table, &spot.sets[pointer as usize]),
    }
}

/// The objects to which what any of some objects holds may point.
fn loaded_from(alloc: Global, table: &Table, objects: &ObjectSet) -> Result<ObjectSet, NoMemory>
    requires { IsWithin (length table.now.objects.items) objects.now.members.items }
    ensures { IfOk result (λ set. Alike set.members.items (union (points table.now).object objects.now.members.items)) }
{
    let mut set = ObjectSet::new(alloc);
    for object in &objects.members {
        set.add_all(&table.objects[*object as usize])?;
    }
    Ok(set)
}
