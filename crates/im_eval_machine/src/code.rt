ghost use Rattle.std.specs.Prelude.{◌≡◌};
ghost use Rattle.std.specs.Prelude.{slice_index_or};
ghost use Rattle.im_ctype.specs.Layout.{layout_at, layouts};
ghost use Rattle.im_ctype.specs.Table.{structs_of};
ghost use Rattle.im_typed.specs.Programs.{frame_of};
ghost use Rattle.im_eval_machine.specs.Settings.{AreLayoutsOf, setting_of};

use im_ctype::Cell;
use im_eval_store::Plan;
use im_typed::Prog;

/// How the objects of a function lie in memory.
#[derive(Drop)]
pub struct Layout {
    /// The number of its first object.
    pub first: u64,
    pub plans: Vec<Plan>,
}

/// What is worked out of a program before it runs.
#[derive(Drop)]
pub struct Layouts {
    pub statics: Vec<Plan>,
    pub functions: Vec<Layout>,
    /// The cells of each struct.
    pub structs: Vec<Vec<Cell>>,
}

/// A program, and what it runs with.
#[derive(Clone, Copy)]
pub struct Code<'p> {
    pub prog: &'p Prog,
    pub layouts: &'p Layouts,
    /// The bytes of each function's frame; a function without an entry has none.
    pub frames: &'p [u32],
    /// The bytes of the stack.
    pub stack: u32,
    /// The bytes that the output has room for.
    pub capacity: u32,
}

impl<'p> Code<'p> {
    /// The cells of the struct of that number.
    pub fn cells_of(self, number: u32) -> &'p [Cell]
        requires { AreLayoutsOf self.prog.now self.layouts.now }
        ensures { result.now
            ≡ (layout_at (layouts (structs_of self.entry.prog.now.types)) number).cells }
    {
        match self.layouts.structs.get(number as usize) {
            None => &[],
            Some(cells) => cells,
        }
    }

    /// The bytes of a function's frame.
    pub fn frame_of(self, function: u32) -> u32
        ensures { result ≡ frame_of (setting_of self.entry) function }
    {
        match self.frames.get(function as usize) {
            None => 0,
            Some(bytes) => *bytes,
        }
    }
}
