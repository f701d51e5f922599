//! From statements that the rules type to well-typed statements.
#![tactic(auto)]

mod laws;

pub use laws::{initialisers_law, statements_law};
