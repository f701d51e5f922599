ghost use Rattle.std.specs.Prelude.{◌≡◌, ◌≤◌, ◌<◌, ◌+◌, ◌*◌, ◌^◌, IfOk, IsTrue};
ghost use Rattle.im_block.specs.Shape.{sum_of};
ghost use Rattle.im_alloc_placed.specs.Placeable.{object_room, HasRoom};
ghost use Rattle.im_promote.specs.Homes.{AreChosen, IsReady};

use crate::candidates::all_candidates;
use crate::objects::contains;
use im_block::{Function, Object};
use im_num::NoMemory;
use std::alloc::Global;

/// The registers of objects, and how many registers the function has with them.
#[derive(Drop)]
pub(crate) struct Homes {
    pub(crate) of: Vec<Option<u32>>,
    pub(crate) register_count: u32,
}

/// Whether an object is one cell.
fn is_scalar(object: &Object) -> bool {
    object.cells.len() == 1
}

/// A register for each scalar that may be one.
pub(crate) fn choose(alloc: Global, function: &Function) -> Result<Homes, NoMemory>
    requires { IsReady function.now }
    ensures { IfOk result (λ homes. AreChosen function.now homes.of.items homes.register_count) }
{
    let words = all_candidates(alloc, function)?;
    let mut of = Vec::new(alloc);
    let mut next = function.register_count;
    for (k, object) in function.objects.iter().enumerate() {
        let may = contains(words[k / 32], (k % 32) as u32);
        if may && is_scalar(object) && next < u32::MAX {
            of.push(Some(next))?;
            next += 1;
        } else {
            of.push(None)?;
        }
    }
    Ok(Homes {
        of,
        register_count: next,
    })
}

/// The bytes of a frame for objects.
fn room_of(objects: &[Object]) -> u64
    requires { sum_of object_room objects.now < 2 ^ 64 }
    ensures { result ≡ sum_of object_room objects.now }
{
    let mut room = 0;
    for object in objects {
        room += (u64::from(object.size) / 4 + 1) * 4;
    }
    room
}

/// Whether a frame has room for so many registers beside the function's objects.
pub(crate) fn has_room(function: &Function, register_count: u32) -> bool
    requires { HasRoom function.now }
    ensures { IsTrue result
        → 8 + 8 * register_count + sum_of object_room function.now.objects.items ≤ function.now.need }
{
    let need = function.need;
    let room = 8 + room_of(&function.objects);
    8 * u64::from(register_count) <= need - room
}
