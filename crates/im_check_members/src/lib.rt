//! From a struct, or a pointer to one, and a member's name to that member (C11 6.5.2.3).
#![tactic(auto)]

mod found;
mod members;

pub use members::{arrowed, dotted};
