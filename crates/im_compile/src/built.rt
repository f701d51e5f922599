use im_image::Image;
use im_rv::Cut;
use im_typed::Frames;

/// An image of a program, and what is told of it.
#[derive(Drop)]
pub struct Built {
    pub image: Image,
    /// K, the longest gap in instructions: each period of at least so many commits or ends the run.
    pub gap: u32,
    /// The bytes of each function's frame, in the order of the functions.
    pub frames: Frames,
    /// The cuts, by address.
    pub cuts: Vec<Cut>,
}
