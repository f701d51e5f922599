//! From parts that are selected to a linked program in memory.
#![tactic(auto)]

mod laws;

pub use laws::{linkable_law, linked_law, stand_law, words_law};
