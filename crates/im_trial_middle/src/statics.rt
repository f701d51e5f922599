ghost use Rattle.std.specs.Prelude.{◌≡◌, ◌≤◌, IfOk};
ghost use Rattle.im_mem.specs.Map.{statics_capacity};
ghost use Rattle.im_frame.specs.Layout.{rooms};
ghost use Rattle.im_select_addresses.specs.Statics.{objects_of};

use crate::fault::{Fault, taken};
use im_block::{Object, Static};
use im_select_addresses::place_statics;
use im_trial::Case;
use std::alloc::Global;

fn named(alloc: Global, size: u32) -> Static
    ensures { result.object.size ≡ size }
{
    Static {
        name: Vec::new(alloc),
        object: Object {
            size,
            cells: Vec::new(alloc),
        },
        values: Vec::new(alloc),
    }
}

// Statics of 4, 1 and 12 bytes.
fn three(alloc: Global) -> Result<Vec<Static>, Fault>
    ensures { IfOk result (λ statics. rooms (objects_of statics.items) ≤ statics_capacity) }
{
    Ok(vec![in alloc; named(alloc, 4), named(alloc, 1), named(alloc, 12)]?)
}

fn addresses(alloc: Global) -> Result<Vec<u32>, Fault> {
    let statics = three(alloc)?;
    Ok(place_statics(alloc, &statics)?)
}

/// The addresses of statics of 4, 1 and 12 bytes.
pub(crate) fn statics_lie_apart(case: &mut Case) {
    let alloc = case.alloc;
    if let Some(addresses) = taken(addresses(alloc), case) {
        for address in &addresses {
            case.show(*address);
        }
    }
}
