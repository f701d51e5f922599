ghost use Rattle.std.specs.Prelude.{◌≡◌, ◌≤◌, IfOk};
ghost use Rattle.im_frame.specs.Layout.{bytes_of};

use crate::fault::{Fault, taken};
use im_block::{Function, Object, Registers};
use im_frame::{Layout, frame_bytes, lay_out};
use im_trial::Case;
use std::alloc::Global;

fn object(alloc: Global, size: u32) -> Object
    ensures { result.size ≡ size }
{
    Object {
        size,
        cells: Vec::new(alloc),
    }
}

// A function with two slots and objects of 1, 4 and 5 bytes.
fn sample(alloc: Global) -> Result<Function, Fault>
    ensures { IfOk result (λ f. bytes_of f ≤ f.need) }
{
    let objects = vec![in alloc; object(alloc, 1), object(alloc, 4), object(alloc, 5)]?;
    Ok(Function {
        nodes: 1,
        need: 100,
        registers: Registers::Machine,
        register_count: 32,
        parameters: 0,
        first_parameter: 10,
        first_object: 0,
        objects,
        slots: 2,
        blocks: Vec::new(alloc),
        entry: 0,
    })
}

// The size of the frame, and its layout.
fn laid_out(alloc: Global) -> Result<(u64, Layout), Fault> {
    let function = sample(alloc)?;
    let bytes = frame_bytes(&function);
    Ok((bytes, lay_out(alloc, &function)?))
}

/// The frame of a function with two slots and objects of 1, 4 and 5 bytes, twice, and the places of
/// the objects.
pub(crate) fn objects_lie_behind_slots(case: &mut Case) {
    let alloc = case.alloc;
    if let Some((bytes, layout)) = taken(laid_out(alloc), case) {
        case.show(bytes);
        case.show(layout.frame);
        for place in &layout.places {
            case.show(*place);
        }
    }
}
