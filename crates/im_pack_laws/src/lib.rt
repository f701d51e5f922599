//! From a packed image to what it holds, what memory holds as it is loaded, and what the law of selection asks of it.
#![tactic(auto)]

mod in_image;
mod laws;

pub use in_image::{in_image_law, selects_law};
pub use laws::{holds_objects_law, loadable_law, loads_law, named_law, packed_law, places_law};
