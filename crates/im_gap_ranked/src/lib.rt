//! From a program's parts to a number for each word of its linked code that falls along the flow.
#![tactic(auto)]

mod laws;

pub use laws::{linked_gap_law, linked_short_law};
