//! From units that the rules type to well-typed programs.
#![tactic(auto)]

mod laws;

pub use laws::units_law;
