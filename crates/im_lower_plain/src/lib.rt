//! The code that lowering makes, as a function on plain data, and what holds of it.
#![tactic(auto)]

mod laws;

pub use laws::made_law;
