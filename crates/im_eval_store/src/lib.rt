//! From objects that begin and end to what lives: the values that an evaluator works on, and the store of those objects.
#![tactic(auto)]

mod access;
mod find;
mod lifetime;
mod memory;
mod object;
mod plan;
mod pointer;
mod update;
mod value;

pub use memory::{Activation, Live, Memory, Position};
pub use plan::Plan;
pub use value::{ObjectName, Place, Value};
