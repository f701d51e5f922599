ghost use Rattle.std.specs.Prelude.{◌≡◌, ◌+◌, ◌<◌, ◌≤◌, length, None, IfOk, OnOk, IfErr};
ghost use Rattle.im_image.specs.declared.fault.ImageFault.TheVariants.{ShortImage};
ghost use Rattle.im_mem.specs.Map.{statics_start};
ghost use Rattle.im_image.specs.Faults.{object_at, objects_at, record_end, object_requirements};
ghost use Rattle.im_image.specs.Faults.{objects_requirements, first_unmet, objects_field};
ghost use Rattle.im_image.specs.Faults.{version_at, IsFaultOf, word_at as word_of};

use crate::fault::ImageFault;
use crate::object::Object;
use crate::rules::{is_name, is_object_place};
use crate::runs::read_runs;
use crate::words::{short, word_at};
use im_mem::STATICS_START;
use std::alloc::Global;

/// The four words of an object.
#[derive(Clone, Copy)]
pub struct ObjectHead {
    /// The address of its first byte.
    pub at: u32,
    /// In bytes.
    pub size: u32,
    /// Bytes of its name.
    pub name: u32,
    /// How many runs.
    pub runs: u32,
}

/// The four words of the object at a place.
fn read_head(bytes: &[u8], place: usize) -> Result<ObjectHead, ImageFault>
    requires { place ≤ length bytes.now }
    ensures there { IfOk result (λ _. place + 16 ≤ length bytes.now) }
    ensures head { IfOk result (λ head. head ≡ record {
      at = word_of bytes.now place;
      size = word_of bytes.now (place + 4);
      name = word_of bytes.now (place + 8);
      runs = word_of bytes.now (place + 12);
    }) }
    ensures ends { IfErr result (λ _. length bytes.now < place + 16) }
    ensures fault { IfErr result (λ fault. fault ≡ ShortImage (length bytes.now)) }
{
    if bytes.len() - place < 16 {
        return Err(short(bytes));
    }
    Ok(ObjectHead {
        at: word_at(bytes, place)?,
        size: word_at(bytes, place + 4)?,
        name: word_at(bytes, place + 8)?,
        runs: word_at(bytes, place + 12)?,
    })
}

/// The object at a place, from the address `least` on. The objects are the field of this number.
#[tactic(auto, unfolding(crate::specs::Faults::object_requirements, crate::specs::Faults::object_at))]
fn read_object(
    alloc: Global,
    bytes: &[u8],
    field: u32,
    statics: u32,
    least: u64,
    place: usize,
) -> Result<Object, ImageFault>
    requires field { field ≡ objects_field (version_at bytes.now) }
    requires there { place ≤ length bytes.now }
    ensures there { OnOk result (record_end bytes.now place ≤ length bytes.now) }
    ensures object { IfOk result (λ object. object ≡ object_at bytes.now place) }
    ensures right { OnOk result (first_unmet (length bytes.now)
        (object_requirements bytes.now statics least place) ≡ None) }
    ensures wrong { IfErr result
        (λ fault. IsFaultOf fault (first_unmet (length bytes.now) (object_requirements bytes.now statics least place))) }
{
    let head = read_head(bytes, place)?;
    if !is_object_place(statics, least, &head) {
        return Err(ImageFault::BadField(field));
    }
    let name_place = place + 16;
    if bytes.len() - name_place < head.name as usize {
        return Err(short(bytes));
    }
    let runs_place = name_place + head.name as usize;
    let name = &bytes[name_place..runs_place];
    if !is_name(name) {
        return Err(ImageFault::BadField(field));
    }
    let runs = read_runs(
        alloc, bytes, field, head.at, head.size, head.runs, runs_place,
    )?;
    Ok(Object {
        at: head.at,
        size: head.size,
        name: Vec::from_slice(alloc, name)?,
        runs,
    })
}

/// So many objects from a place on, and nothing behind them.
pub fn read_objects(
    alloc: Global,
    bytes: &[u8],
    field: u32,
    statics: u32,
    count: u32,
    place: usize,
) -> Result<Vec<Object>, ImageFault>
    requires field { field ≡ objects_field (version_at bytes.now) }
    requires there { place ≤ length bytes.now }
    ensures objects { IfOk result (λ objects. objects.items ≡ objects_at bytes.now count place) }
    ensures right { OnOk result
        (first_unmet (length bytes.now) (objects_requirements bytes.now statics count statics_start place) ≡ None) }
    ensures wrong { IfErr result (λ fault. IsFaultOf fault
        (first_unmet (length bytes.now) (objects_requirements bytes.now statics count statics_start place))) }
{
    let mut objects = Vec::new(alloc);
    let mut least = u64::from(STATICS_START);
    let mut next = place;
    for _ in 0..count {
        let object = read_object(alloc, bytes, field, statics, least, next)?;
        least = u64::from(object.at) + u64::from(object.size) + 1;
        next += 16 + object.name.len() + 12 * object.runs.len();
        objects.push(object)?;
    }
    if next < bytes.len() {
        return Err(ImageFault::Trailing(next as u64));
    }
    Ok(objects)
}
