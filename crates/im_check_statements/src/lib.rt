//! From the statements of a function's body to the typed statements, or the rule that a node breaks.
#![tactic(auto)]

mod bodies;
mod statements;

pub use bodies::body;
