//! From names, calls and literals to their terms, where the rules have nothing against them.
#![tactic(auto)]

mod arguments;
mod calls;
mod literals;
mod names;

pub use calls::{call_term, callee_in};
pub use literals::{character_term, number_term, string_term};
pub use names::name_term;
