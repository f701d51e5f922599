ghost use Rattle.std.specs.Prelude.{MatchResult};
ghost use Rattle.im_cmd_lines.specs.Refusals.{refused_of};
ghost use Rattle.im_cmd.specs.Images.{ReadsImage, RefusesImage};

use crate::files::read_file;
use im_cmd_lines::Refusal;
use im_image::{Image, ImageFault, read_image};
use im_io::Shelf;
use std::alloc::Global;

/// Bytes of an image's file.
pub const IMAGE_LIMIT: u64 = 64 * 1024 * 1024;

/// The image that a file holds.
pub fn read_stored<'a, H: Shelf>(
    alloc: Global,
    shelf: &mut H,
    name: &'a str,
) -> Result<Image, Refusal<'a>>
    ensures { MatchResult result (λ image. ReadsImage name.now image (H.state shelf.old)
        (H.state shelf.new))
        (λ refusal. RefusesImage name.now (H.state shelf.old) (H.state shelf.new)
        (refused_of refusal)) }
{
    let text = match read_file(alloc, shelf, name, IMAGE_LIMIT) {
        Ok(text) => text,
        Err(refusal) => return Err(refusal),
    };
    match read_image(alloc, &text) {
        Ok(image) => Ok(image),
        Err(ImageFault::OutOfMemory) => Err(Refusal::OutOfMemory),
        Err(fault) => Err(Refusal::NotAnImage(name, fault)),
    }
}
