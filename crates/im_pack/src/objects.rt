ghost use Rattle.std.specs.Prelude.{◌≡◌, IfOk};
ghost use Rattle.im_block.specs.Wellformed.{HasCells};
ghost use Rattle.im_pack.specs.Bytes.{AreReady};
ghost use Rattle.im_pack.specs.Objects.{object_of as object_of_static, objects_at};

use crate::runs::runs_of;
use im_block::Static;
use im_image::Object;
use im_num::NoMemory;
use std::alloc::Global;

/// The object of a static at this address.
fn object_of(alloc: Global, at: u32, part: &Static) -> Result<Object, NoMemory>
    requires { HasCells part.now.object }
    ensures { IfOk result (λ object. object ≡ object_of_static at part.now) }
{
    let size = part.object.size;
    Ok(Object {
        at,
        size,
        name: Vec::from_slice(alloc, &part.name)?,
        runs: runs_of(alloc, &part.object.cells)?,
    })
}

/// The objects of statics at these addresses.
pub(crate) fn objects_of_statics(
    alloc: Global,
    statics: &[Static],
    addresses: &[u32],
) -> Result<Vec<Object>, NoMemory>
    requires { AreReady statics.now addresses.now }
    ensures { IfOk result (λ objects. objects.items ≡ objects_at statics.now addresses.now) }
{
    let mut objects = Vec::new(alloc);
    for i in 0..statics.len() {
        let part = &statics[i];
        objects.push(object_of(alloc, addresses[i], part)?)?;
    }
    Ok(objects)
}
