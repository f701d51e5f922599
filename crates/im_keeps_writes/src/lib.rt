//! What else holds of an image that the compiler builds: which memory its runs write, wherever power fails, and how many bytes of instructions each function can have at most.
#![tactic(auto)]

mod function;
mod laws;

pub use function::function_bound_law;
pub use laws::{built_bound_law, built_writes_law};
