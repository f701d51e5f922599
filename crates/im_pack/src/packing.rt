ghost use Rattle.std.specs.Prelude.{◌≡◌, ◌≤◌, ◌<◌, ◌^◌, map, slice_index, IfOk, ℕ};
ghost use Rattle.im_mem.specs.Map.{output_capacity, stack_capacity, statics_capacity};
ghost use Rattle.im_mem.specs.Map.{statics_start};
ghost use Rattle.im_block.specs.declared.unit.Unit.{Unit};
ghost use Rattle.im_block.specs.Meaning.{static_of};
ghost use Rattle.im_frame.specs.Layout.{places_from, rooms};
ghost use Rattle.im_select_addresses.specs.Statics.{objects_of};
ghost use Rattle.im_pack.specs.Packed.{AreNamable, AreOfUnit, IsLoadable, IsPacked};

use crate::bytes::first_bytes;
use crate::objects::objects_of_statics;
use im_block::Static;
use im_image::{Form, Image, Version};
use im_num::NoMemory;
use im_rv::Code;
use std::alloc::Global;

/// The same words.
fn copy_of(alloc: Global, words: &[u32]) -> Result<Vec<u32>, NoMemory>
    ensures same { IfOk result (λ copy. copy.items ≡ words.now) }
    ensures wide { IfOk result (λ copy. (k : ℕ) → slice_index copy.items k < 2 ^ 32) }
{
    Ok(Vec::from_slice(alloc, words)?)
}

/// The image of linked code, with the first values of its unit's statics at their addresses, and an
/// object for each of them. `stack` and `out_cap` are in bytes.
pub fn pack(
    alloc: Global,
    statics: &[Static],
    addresses: &[u32],
    code: &Code,
    stack: u32,
    out_cap: u32,
) -> Result<Image, NoMemory>
    requires well_formed { AreOfUnit statics.now }
    requires named { AreNamable (map static_of statics.now) }
    requires room { rooms (objects_of statics.now) ≤ statics_capacity }
    requires places { addresses.now ≡ places_from statics_start (objects_of statics.now) }
    requires code { IsLoadable code.now }
    requires some_stack { 256 ≤ stack }
    requires most_stack { stack ≤ stack_capacity }
    requires output { out_cap ≤ output_capacity }
    ensures { IfOk result
        (λ image. (u : Unit) → u.statics.items ≡ statics.now
        → IsPacked u addresses.now code.now stack out_cap image) }
{
    let bytes = first_bytes(alloc, statics, addresses)?;
    let objects = objects_of_statics(alloc, statics, addresses)?;
    Ok(Image {
        version: Version::Two,
        form: Form::TwoLengths,
        words: copy_of(alloc, &code.words)?,
        statics: bytes,
        stack,
        out_cap,
        entry: code.entry,
        objects,
    })
}
