//! From the tokens of a text to the syntax tree that they spell, or the first that no unit goes on with.
#![tactic(auto)]

mod dimensions;
mod externals;
mod text;
mod units;

pub use text::{ParseFault, parse};
