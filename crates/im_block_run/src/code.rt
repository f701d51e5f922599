ghost use Rattle.std.specs.Prelude.{◌≡◌, slice_index_or};

use im_block::Unit;
use im_eval_store::Plan;

/// What a unit runs with.
#[derive(Clone, Copy)]
pub struct Setting<'s> {
    /// The bytes of each function's frame; a function without an entry has none.
    pub frames: &'s [u32],
    /// The bytes of the stack.
    pub stack: u32,
    /// The bytes that the output has room for.
    pub capacity: u32,
    pub input: &'s [u8],
}

/// How the objects of a unit lie in memory.
#[derive(Drop)]
pub(crate) struct Layouts {
    pub statics: Vec<Plan>,
    pub functions: Vec<Vec<Plan>>,
}

/// A unit, and what it runs with.
#[derive(Clone, Copy)]
pub(crate) struct Code<'u> {
    pub unit: &'u Unit,
    pub layouts: &'u Layouts,
    pub setting: Setting<'u>,
}

impl<'s> Setting<'s> {
    /// The bytes of a function's frame.
    pub(crate) fn frame_of(self, function: u32) -> u32
        ensures { result ≡ slice_index_or self.entry.frames.now function 0 }
    {
        match self.frames.get(function as usize) {
            None => 0,
            Some(bytes) => *bytes,
        }
    }
}
