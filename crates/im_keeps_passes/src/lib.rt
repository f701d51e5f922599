//! The record of the compiler's passes: what each promises of its source and its target, and what follows of them all.
#![tactic(auto)]

mod laws;

pub use laws::{code_bounds_law, passes_keep_law};
