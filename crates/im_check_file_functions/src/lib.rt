//! From a function definition to the typed function, or the rule that a node breaks (C11 6.9.1).
#![tactic(auto)]

mod begun;
mod bodies;
mod definitions;
mod entered;
mod heads;
mod objects;
mod read;

pub use definitions::definition;
