//! From the passes that add cuts to dependences that name accesses of their own function.
#![tactic(auto)]

mod laws;

pub use laws::{force_names_law, place_names_law, recut_names_law, uncut_names_law};
