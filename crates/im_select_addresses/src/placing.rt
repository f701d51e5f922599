ghost use Rattle.std.specs.Prelude.{◌≡◌, ◌≤◌, IfOk};
ghost use Rattle.im_mem.specs.Map.{statics_start, statics_capacity};
ghost use Rattle.im_frame.specs.Layout.{room, rooms, places_from};
ghost use Rattle.im_select_addresses.specs.Statics.{objects_of};

use im_block::Static;
use im_num::NoMemory;
use std::alloc::Global;

/// The first address of the statics.
const START: u32 = 0x100000;

/// Bytes of a static, its unused byte, and up to a multiple of 4.
fn room_of(size: u32) -> u64
    ensures { result ≡ room size }
{
    (u64::from(size) / 4 + 1) * 4
}

/// The addresses of statics, one behind the other.
pub fn place_statics(alloc: Global, statics: &[Static]) -> Result<Vec<u32>, NoMemory>
    requires { rooms (objects_of statics.now) ≤ statics_capacity }
    ensures { IfOk result
        (λ addresses. addresses.items ≡ places_from statics_start (objects_of statics.now)) }
{
    let mut addresses = Vec::new(alloc);
    let mut next = u64::from(START);
    for part in statics {
        addresses.push(next as u32)?;
        next += room_of(part.object.size);
    }
    Ok(addresses)
}
