//! From expressions that the rules type to well-typed expressions.
#![tactic(auto)]

mod laws;

pub use laws::{expressions_law, parts_law, types_law};
