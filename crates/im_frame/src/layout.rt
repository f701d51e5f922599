ghost use Rattle.std.specs.Prelude.{◌≡◌, ◌≤◌, ◌<◌, ◌+◌, ◌^◌, IfOk, IfErr};
ghost use Rattle.im_frame.specs.Layout.{IsLayout, IsFault, room, rooms, places_from, bytes_of};

use crate::fault::FrameFault;
use im_block::{Function, Object};
use std::alloc::Global;

/// Where the parts of a frame lie, in bytes from its lowest address: the return address at 0, slot
/// n at 8 + 8n, the objects behind the slots. Behind each part is a byte that nothing uses.
#[derive(Drop)]
pub struct Layout {
    /// The bytes of the frame, a multiple of 4.
    pub frame: u32,
    /// The place of each object of the function, in their order.
    pub places: Vec<u32>,
}

/// The most bytes that a frame may have.
const FRAME_LIMIT: u64 = 65536;

/// Bytes of an object, its unused byte, and up to a multiple of 4.
fn room_of(size: u32) -> u64
    ensures { result ≡ room size }
{
    (u64::from(size) / 4 + 1) * 4
}

/// Where objects end that lie one behind the other from a place on.
fn end_of(start: u64, objects: &[Object]) -> u64
    requires { start + rooms objects.now < 2 ^ 64 }
    ensures { result ≡ start + rooms objects.now }
{
    let mut next = start;
    for object in objects {
        next += room_of(object.size);
    }
    next
}

/// The places of objects that lie one behind the other.
fn places_of(alloc: Global, start: u64, objects: &[Object]) -> Result<Vec<u32>, FrameFault>
    requires { start + rooms objects.now ≤ 65536 }
    ensures gives { IfOk result (λ places. places.items ≡ places_from start objects.now) }
    ensures faults { IfErr result (λ e. e ≡ FrameFault.OutOfMemory) }
{
    let mut places = Vec::new(alloc);
    let mut next = start;
    for object in objects {
        places.push(next as u32)?;
        next += room_of(object.size);
    }
    Ok(places)
}

/// Bytes of a function's frame.
pub fn frame_bytes(function: &Function) -> u64
    requires { bytes_of function.now ≤ function.now.need }
    ensures { result ≡ bytes_of function.now }
{
    let _need = function.need;
    end_of(8 + 8 * u64::from(function.slots), &function.objects)
}

/// The layout of a function's frame.
pub fn lay_out(alloc: Global, function: &Function) -> Result<Layout, FrameFault>
    requires { bytes_of function.now ≤ function.now.need }
    ensures gives { IfOk result (λ l. IsLayout function.now l) }
    ensures faults { IfErr result (λ e. IsFault function.now e) }
{
    let bytes = frame_bytes(function);
    if bytes > FRAME_LIMIT {
        return Err(FrameFault::Limit(bytes));
    }
    let places = places_of(alloc, 8 + 8 * u64::from(function.slots), &function.objects)?;
    Ok(Layout {
        frame: bytes as u32,
        places,
    })
}
