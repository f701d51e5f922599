ghost use Rattle.std.specs.Prelude.{◌≡◌, map, IfOk};
ghost use Rattle.im_store.specs.im_ctype.Table.{Table};
ghost use Rattle.im_typed.specs.ProgramOf.{func_of};
ghost use Rattle.im_typed.specs.Frames.{size_in, sizes_in};

use crate::program::Func;
use im_num::NoMemory;
use std::alloc::Global;

/// The bytes of the frame of the function of that name.
#[derive(Debug, Drop)]
pub struct Frame {
    pub name: Vec<u8>,
    pub size: u32,
}

/// A frame table: a frame for each function of a program.
#[derive(Debug, Drop)]
pub struct Frames {
    pub frames: Vec<Frame>,
}

impl Frames {
    /// The bytes of the frame of the function of that name: 0 where the table lacks it.
    pub fn size(&self, name: &[u8]) -> u32
        ensures { result ≡ size_in self.now.frames.items name.now }
    {
        for frame in &self.frames {
            if frame.name.as_slice() == name {
                return frame.size;
            }
        }
        0
    }

    /// The bytes of the frames of these functions, in their order.
    pub fn sizes(&self, alloc: Global, funcs: &[Func]) -> Result<Vec<u32>, NoMemory>
        ensures { IfOk result (λ sizes. (types : Table) → sizes.items
            ≡ sizes_in self.now.frames.items (map (func_of types) funcs.now)) }
    {
        let mut sizes = Vec::new(alloc);
        for func in funcs {
            sizes.push(self.size(&func.name))?;
        }
        Ok(sizes)
    }
}
