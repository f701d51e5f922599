//! The headline as a definition: what a written image keeps of its source's meaning, whatever power does.
#![tactic(auto)]

mod laws;

pub use laws::{refined_law, silent_law};
