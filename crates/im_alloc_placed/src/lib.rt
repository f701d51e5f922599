//! What placed code is, and the block code that can be placed.
#![tactic(auto)]

mod laws;

pub use laws::{costs_law, cuts_keep_places_law};
