ghost use Rattle.std.specs.Prelude.{◌≡◌, ◌<◌, ◌≤◌, ◌+◌, length};
ghost use Rattle.im_store.specs.Objects.{Named, Slot};
ghost use Rattle.im_alloc_placed.specs.Operands.{HasObject};
ghost use Rattle.im_select.specs.Given.{given};
ghost use Rattle.im_select.specs.Places.{at_of, HasPlaces};

use im_block::Function;
use im_frame::Layout;

/// What the names in a function's code stand for.
#[derive(Clone, Copy)]
pub struct Names<'a> {
    /// The address of each static of the unit.
    pub statics: &'a [u32],
    /// How many functions the unit has. Function i has the label 64 + i.
    pub functions: u32,
    pub function: &'a Function,
    /// The layout of the function's frame.
    pub layout: &'a Layout,
    /// The label of the function's block 0; that of its block b is b more.
    pub first_block: u32,
}

/// The address of a static.
pub(crate) fn static_place(names: &Names, number: u32) -> u32
    requires places { HasPlaces (given names.now) }
    requires there { number < length names.now.statics.now }
    ensures value { result ≡ at_of (given names.now) (Named number) }
    ensures low { result < 2097152 }
{
    names.statics[number as usize]
}

/// The place of an object in the frame.
pub(crate) fn local_place(names: &Names, number: u32) -> u32
    requires places { HasPlaces (given names.now) }
    requires there { HasObject names.now.function.now number }
    ensures value { result ≡ at_of (given names.now) (Named number) }
    ensures low { result < 65536 }
{
    names.layout.places[(number - names.function.first_object) as usize]
}

/// The place of a slot in the frame.
pub(crate) fn slot_place(names: &Names, slot: u32) -> u32
    requires places { HasPlaces (given names.now) }
    requires there { slot < names.now.function.now.slots }
    ensures value { result ≡ at_of (given names.now) (Slot slot) }
    ensures low { result < 65536 }
{
    8 + 8 * slot
}
