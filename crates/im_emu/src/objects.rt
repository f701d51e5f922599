ghost use Rattle.std.specs.Prelude.{◌≡◌, IfOk};

use im_image::Object;
use im_num::NoMemory;
use std::alloc::{AllocError, Global};

fn copy_object(alloc: Global, object: &Object) -> Result<Object, AllocError>
    ensures { IfOk result (λ copy. copy ≡ object.now) }
{
    Ok(Object {
        at: object.at,
        size: object.size,
        name: Vec::from_slice(alloc, &object.name)?,
        runs: Vec::from_slice(alloc, &object.runs)?,
    })
}

/// The same objects.
pub fn copy_objects(alloc: Global, objects: &[Object]) -> Result<Vec<Object>, NoMemory>
    ensures { IfOk result (λ copies. copies.items ≡ objects.now) }
{
    let mut copies = Vec::new(alloc);
    for object in objects {
        copies.push(copy_object(alloc, object)?)?;
    }
    Ok(copies)
}
