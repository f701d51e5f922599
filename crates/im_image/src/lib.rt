//! The image of a device's program: its contents, and its text, of version 1 or 2.
#![tactic(auto)]

mod fault;
mod form;
mod header;
mod image;
mod laws;
mod object;
mod objects;
mod reading;
mod rules;
mod runs;
mod upgrading;
mod version;
mod words;
mod writing;

pub use fault::ImageFault;
pub use form::Form;
pub use image::Image;
pub use laws::{each_text_law, no_fault_law, one_image_law, upgrade_law};
pub use object::{CellRun, Object};
pub use reading::read_image;
pub use upgrading::upgrade;
pub use version::Version;
pub use writing::write_image;
