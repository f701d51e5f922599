//! From a unit to its counts that have a limit, and to the function or the typedef name that is over it.
#![tactic(auto)]

mod crowded;
mod derivations;
mod heads;
mod words;

pub use crowded::{Crowded, first_crowded};
pub use derivations::{Deep, first_deep};
pub use heads::{Head, function_heads};
