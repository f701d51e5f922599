//! From typed expressions to larger ones, each with what it is as a constant expression.
#![tactic(auto)]

mod annotated;
mod constancy;
mod values;

pub use annotated::{
    Annotated, binary, choice, comparison, conjunction, conversion, disjunction, negation, number,
    unary, variable,
};
pub use constancy::Constancy;
