//! The bytes of statics at a place at file scope.
ghost use Rattle.im_rules.specs.FileScope as f;
ghost use Rattle.im_check_file_place.specs.Files.{file_place_of};

use im_check_file_place::File;
use im_check_static_values::Sizes;
use im_num::NoMemory;

/// The statics of a unit, as far as they are declared before a place at file scope.
#[derive(Clone, Copy)]
pub(crate) struct Statics<'a> {
    pub(crate) file: &'a File,
}

impl<'a> Sizes for Statics<'a> {
    ghost size = { λ s n. f.static_size (file_place_of s.file.now) n };

    fn bytes(&self, number: u32) -> Result<u64, NoMemory> {
        self.file.static_size(number as usize)
    }
}
