//! From the statics of a unit and the layouts of its frames to where each object lies, and from statics in memory to the variables that an image shows.
#![tactic(auto)]

mod laws;
mod placing;

pub use laws::{frames_law, shown_law, statics_law};
pub use placing::place_statics;
