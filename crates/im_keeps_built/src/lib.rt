//! From what is built of a program to the theorem: whatever power does, the image keeps the
//! program's meaning.
#![tactic(auto)]

mod laws;

pub use laws::{built_keeps_law, built_selects_law, refused_law};
