//! From the terms of an expression's parts to its own, where the rules have nothing against it.
#![tactic(auto)]

mod changes;
mod terms;

pub use changes::{assign_term, step_term};
pub use terms::{
    binary_term, cast_term, comma_term, conditional_term, index_term, size_term, unary_term,
};
