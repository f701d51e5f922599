//! Functions and first values of statics of a unit whose end isn't read yet.
#![tactic(auto)]

mod first_values;
mod function;

pub use first_values::FirstValues;
pub use function::{Defined, are_complete};
