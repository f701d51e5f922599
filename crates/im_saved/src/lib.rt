//! From the liveness of registers at words to the registers that a run of the image uses behind its cuts.
#![tactic(auto)]

mod image;
mod laws;

pub use image::image_law;
pub use laws::live_law;
